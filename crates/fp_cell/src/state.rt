use crate::calls::Calls;
use crate::guard::Holding;
use crate::walking::Configuration;
use fp_base::Value;

/// What an instance has beside its last stamp: the guard's holder, the turn's holder, and for each machine its configuration,
/// for each parameter its value, for each channel its last written value and for each event its count.
#[derive(Drop)]
pub(crate) struct State {
    pub calls: Calls,
    pub guard: Option<Holding>,
    pub turn: Option<u32>,
    pub machines: Vec<Option<Configuration>>,
    pub params: Vec<Value>,
    pub channels: Vec<Option<Value>>,
    pub counts: Vec<u64>,
}
