ghost use Rattle.std.specs.Prelude.{◌≡◌, ◌<◌, ◌⊎◌, ℕ, true, List, drop, length, Option, Result};
ghost use Rattle.fp_grammar.specs.Grammar.{Grammar, Spells};
ghost use Rattle.fp_grammar.specs.Promises.{Fits};
ghost use Rattle.fp_grammar.specs.Decided.{Answer, RefsDecided};
ghost use Rattle.fp_grammar.specs.Broken.{IsBroken};
ghost use Rattle.fp_grammar.specs.Parses.{Accepts, Refuses, Parses};
ghost use Rattle.fp_grammar.specs.Longest.{AnswersLongest, IsLongestViable};
ghost use Rattle.fp_grammar.specs.Looks.{Look, Sees, begun, left};
ghost use Rattle.fp_grammar.specs.Same.{IsSameLanguage, alike, alike_or_end, factored, factored_or_end, maybe_first, split_first};
ghost use Rattle.fp_grammar.specs.Steps.{Steps, Driven, from_state};
ghost use Rattle.fp_grammar.specs.Steps.Next.{on, ends};
ghost use Rattle.fp_grammar.specs.declared.halt.Halt.{Halt};

/// A grammar over the tokens of one type, which passes the test for the tokens of lookahead.
pub trait Predictive {
    type Token;

    type Node;

    ghost kind: { Self.Token → ℕ };

    ghost grammar: { Grammar Self.Token Self.Node };

    ghost fits: { Fits kind grammar };

    ghost decided: { RefsDecided kind grammar };
}

/// A token list spells at most one node.
pub fn one_node<G: Predictive>()
    ensures { (w : List G.Token) (x y : G.Node) → Spells G.kind G.grammar w x → Spells G.kind G.grammar w y → x ≡ y }
{}

/// A token list breaks the grammar at one place at most, which is directly after its longest viable prefix, and then it spells no node.
pub fn one_break<G: Predictive>()
    ensures one { (tokens before rest before' rest' : List G.Token) → IsBroken G.kind G.grammar tokens before rest → IsBroken G.kind G.grammar tokens before' rest' → before ≡ before' }
    ensures longest { (tokens before rest : List G.Token) → IsBroken G.kind G.grammar tokens before rest → IsLongestViable G.kind G.grammar tokens before }
    ensures none { (tokens before rest : List G.Token) (x : G.Node) → IsBroken G.kind G.grammar tokens before rest → Spells G.kind G.grammar tokens x → ⊥ }
{}

/// Each token list spells a node or breaks the grammar.
pub fn node_or_break<G: Predictive>()
    ensures { (tokens : List G.Token) → ((x : G.Node) × Spells G.kind G.grammar tokens x) ⊎ ((before rest : List G.Token) × IsBroken G.kind G.grammar tokens before rest) }
{}

/// What a parse function promises says what the longest viable prefix is.
pub fn longest_prefix<G: Predictive>()
    ensures { (tokens : List G.Token) (from : ℕ) (answer : Result (G.Node × ℕ) Halt) → Parses G.kind G.grammar tokens from answer → AnswersLongest G.kind G.grammar tokens from answer }
{}

/// What a parse answers by the alternatives that a look at the next tokens leaves, a parse by all of them answers.
pub fn left_answers<G: Predictive>()
    ensures { (look : Look) (tokens : List G.Token) (from : ℕ) (answer : Result (G.Node × ℕ) Halt) → Sees G.kind look tokens from → begun look (left look G.grammar) ≡ true → Parses G.kind (left look G.grammar) tokens from answer → Parses G.kind G.grammar tokens from answer }
{}

/// A grammar as it is written, and another of its language, which passes the test.
pub trait Rewritten {
    type Token;

    type Node;

    ghost kind: { Self.Token → ℕ };

    ghost as_written: { Grammar Self.Token Self.Node };

    ghost worked: { Grammar Self.Token Self.Node };

    ghost same: { IsSameLanguage kind as_written worked };

    ghost fits: { Fits kind worked };
}

/// What a parse by the one answers, a parse by what is written answers: its longest viable prefix and its one place are those of what is
/// written, of which a token list spells at most one node.
pub fn same_answers<G: Rewritten>()
    ensures parses { (tokens : List G.Token) (from : ℕ) (answer : Result (G.Node × ℕ) Halt) → Parses G.kind G.worked tokens from answer → Parses G.kind G.as_written tokens from answer }
    ensures longest { (tokens : List G.Token) (from : ℕ) (answer : Result (G.Node × ℕ) Halt) → Parses G.kind G.worked tokens from answer → AnswersLongest G.kind G.as_written tokens from answer }
    ensures one { (w : List G.Token) (x y : G.Node) → Spells G.kind G.as_written w x → Spells G.kind G.as_written w y → x ≡ y }
{}

/// Grammars that begin alike, and what is made of them.
pub trait Alike {
    type Token;

    type One;

    type Left;

    type Right;

    type Node;

    ghost kind: { Self.Token → ℕ };

    ghost one: { Grammar Self.Token Self.One };

    ghost left: { Grammar Self.Token Self.Left };

    ghost right: { Grammar Self.Token Self.Right };

    ghost with_left: { Self.One × Self.Left → Self.Node };

    ghost with_right: { Self.One × Self.Right → Self.Node };

    ghost alone: { Self.One → Self.Node };

    ghost maybe: { Option Self.One × Self.Left → Self.Node };
}

/// A shared beginning is taken out of two alternatives, out of one that goes on and one that ends, and put before what it may precede;
/// the language stays the same, whatever the grammars are.
pub fn shared_beginning<G: Alike>()
    ensures factored { IsSameLanguage G.kind (alike G.with_left G.with_right G.one G.left G.right) (factored G.with_left G.with_right G.one G.left G.right) }
    ensures or_end { IsSameLanguage G.kind (alike_or_end G.with_left G.alone G.one G.left) (factored_or_end G.with_left G.alone G.one G.left) }
    ensures split { IsSameLanguage G.kind (maybe_first G.maybe G.one G.left) (split_first G.maybe G.one G.left) }
{}

/// A language that is read in steps, piece by piece.
pub trait Stepwise {
    type Token;

    type Portion;

    type Node;

    ghost State: { Type 0 };

    ghost kind: { Self.Token → ℕ };

    ghost steps: { Steps Self.Token State Self.Portion Self.Node };

    ghost over: { List ℕ };

    ghost driven: { Driven kind steps over };
}

/// From each state on it is a part that other grammars take. A piece that was read leads to what is left, which answers for the whole; a
/// last piece ends it, and where a piece is refused the whole is.
pub fn piece_by_piece<G: Stepwise>()
    ensures fits { (s : G.State) → Fits G.kind (from_state G.kind G.steps G.over s) }
    ensures goes_on { (s after : G.State) (tokens : List G.Token) (from at : ℕ) (piece : G.Portion) (answer : Result (G.Node × ℕ) Halt) → Accepts G.kind (G.steps.piece s) tokens from piece at → G.steps.leads s piece ≡ on after → Parses G.kind (from_state G.kind G.steps G.over after) tokens at answer → Parses G.kind (from_state G.kind G.steps G.over s) tokens from answer }
    ensures ends { (s : G.State) (tokens : List G.Token) (from to : ℕ) (piece : G.Portion) (node : G.Node) → Accepts G.kind (G.steps.piece s) tokens from piece to → G.steps.leads s piece ≡ ends node → Accepts G.kind (from_state G.kind G.steps G.over s) tokens from node to }
    ensures stops { (s : G.State) (tokens : List G.Token) (from to : ℕ) → Refuses G.kind (G.steps.piece s) tokens from to → Refuses G.kind (from_state G.kind G.steps G.over s) tokens from to }
    ensures reads { (s : G.State) (tokens : List G.Token) (from to : ℕ) (piece : G.Portion) → Accepts G.kind (G.steps.piece s) tokens from piece to → length (drop to tokens) < length (drop from tokens) }
    ensures decided { ((s : G.State) → RefsDecided G.kind (G.steps.piece s)) → (s : G.State) (tokens : List G.Token) (from : ℕ) → Answer G.kind (from_state G.kind G.steps G.over s) tokens from }
{}
