/// What is wanted of a value at a place of a scenario.
#[derive(Clone, Copy)]
pub enum Wanted {
    Scenario,
    Callers,
    Caller,
    Handlers,
    Handler,
    Guards,
    Guard,
    Actions,
    Action,
    Answers,
    /// A number of steps.
    Steps,
    /// The number of a port's place.
    Number,
    Text,
    Identifier,
    /// A truth value.
    Truth,
    /// `true` itself.
    Yes,
    /// A list of any values.
    Values,
    Anything,
}
