/// The group of names to which a definition belongs, and in which a use is looked up. FPP Language Specification, "Name Groups".
#[derive(Clone, Copy)]
pub enum Group {
    /// Types.
    Kind,
    /// Constants and the constants of enumerations.
    Value,
    Port,
    Component,
    Instance,
    Topology,
    /// State machines.
    Machine,
    Interface,
}
