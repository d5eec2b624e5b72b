ghost use Rattle.std.specs.Prelude.{◌≡◌};
ghost use Rattle.fp_scenario.specs.Keys.{key_text};

/// The key of an action that says what it does.
#[derive(Clone, Copy, PartialEq, Eq)]
pub enum FirstKey {
    Call,
    Command,
    Emit,
    Write,
    Read,
    Signal,
    Post,
    Respond,
    Dispatch,
    Return,
}

impl FirstKey {
    /// The key as it is written.
    pub fn text(self) -> &'static str
        ensures { result.now ≡ key_text self }
    {
        match self {
            FirstKey::Call => "call",
            FirstKey::Command => "command",
            FirstKey::Emit => "emit",
            FirstKey::Write => "write",
            FirstKey::Read => "read",
            FirstKey::Signal => "signal",
            FirstKey::Post => "post",
            FirstKey::Respond => "respond",
            FirstKey::Dispatch => "dispatch",
            FirstKey::Return => "return",
        }
    }
}
