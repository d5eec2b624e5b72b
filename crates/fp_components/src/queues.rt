ghost use Rattle.std.specs.Prelude.{◌≡◌};
ghost use Rattle.fp_components.specs.Resolved.{IsLater, IsRole, IsWay, full_of};
ghost use Rattle.fp_components.specs.Whole.{IsWholeCommand, IsWholeQueue, IsWholeRole};

use crate::numbers::priority_given;
use fp_tables::{Full, Role, Way};
use fp_tree::CommandKind;
use fp_written_parts::{QueueWords, WrittenRole};

fn full_of(full: Option<Full>) -> Full
    ensures { result ≡ full_of full }
{
    match full {
        Some(full) => full,
        None => Full::Assert,
    }
}

/// Into the queue, as it is written.
pub fn later(queue: QueueWords) -> Way
    ensures { IsWholeQueue queue → IsLater queue result }
{
    Way::Later {
        priority: priority_given(queue.priority),
        full: full_of(queue.full),
    }
}

/// How a command is treated.
pub fn way_of(kind: CommandKind, queue: QueueWords) -> Way
    ensures { IsWholeCommand kind queue → IsWay kind queue result }
{
    match kind {
        CommandKind::Async => later(queue),
        CommandKind::Sync => Way::Sync,
        CommandKind::Guarded => Way::Guarded,
    }
}

/// What a port is for.
pub fn role_of(role: WrittenRole, queue: QueueWords) -> Role
    ensures { IsWholeRole role queue → IsRole role queue result }
{
    match role {
        WrittenRole::AsyncInput => Role::Input(later(queue)),
        WrittenRole::SyncInput => Role::Input(Way::Sync),
        WrittenRole::GuardedInput => Role::Input(Way::Guarded),
        WrittenRole::Output => Role::Output,
        WrittenRole::Special(special) => Role::Special(special),
        WrittenRole::Internal => Role::Internal(later(queue)),
    }
}
