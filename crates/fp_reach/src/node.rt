use fp_tables::Spot;

/// A handler of an instance at a place, or the implied one of a set or save command.
#[derive(Clone, Copy, PartialEq, Eq, PartialOrd, Ord)]
pub enum Node {
    At { instance: u32, place: Spot },
    Implied { instance: u32, command: u32 },
}

/// Where an action arrives: at a port, with a command, or with a signal for a machine instance.
#[derive(Clone, Copy)]
pub enum Arrival {
    Port { instance: u32, port: u32 },
    Command { instance: u32, command: u32 },
    Signal { instance: u32, running: u32 },
}

/// The guard of an instance, or its turn.
#[derive(Clone, Copy, PartialEq, Eq, PartialOrd, Ord)]
pub enum Lock {
    Guard(u32),
    Turn(u32),
}
