/// What an entry of a log says first: who did what where.
#[derive(Clone, Copy)]
struct Step<'a> {
    actor: &'a str,
    instance: &'a str,
    verb: &'a str,
}

fn step_of(line: &str) -> Step<'_> {
    let mut words = line.split(' ').skip(1);
    let actor = words.next().unwrap_or("");
    let instance = words.next().unwrap_or("");
    let verb = words.next().unwrap_or("");
    Step {
        actor,
        instance,
        verb,
    }
}

// What stands behind the stamp of a line.
fn entry_of(line: &str) -> &str {
    let (_, behind) = line.split_once(' ').unwrap_or((line, ""));
    behind
}

fn count_of(log: &str, entry: &str) -> usize {
    log.split('\n')
        .filter(|line| entry_of(line) == entry)
        .count()
}

/// Whether a log of a complete run has the entries of another one and no more, with whatever stamps and in whatever order.
pub fn has_entries_of(log: &str, other: &str) -> bool {
    for line in other.split('\n') {
        let entry = entry_of(line);
        if count_of(log, entry) != count_of(other, entry) {
            return false;
        }
    }
    log.ends_with("\nend complete\n") && log.split('\n').count() == other.split('\n').count()
}

/// Whether no guard of an instance is taken while an actor is between its guard and its leave there.
pub fn guard_is_kept(log: &str, instance: &str) -> bool {
    let mut holder = None;
    for line in log.split('\n') {
        let step = step_of(line);
        if step.instance == instance {
            match (step.verb, holder) {
                ("guard", Some(_)) => return false,
                ("guard", None) => holder = Some(step.actor),
                ("leave", Some(actor)) if actor == step.actor => holder = None,
                _ => {}
            }
        }
    }
    true
}

/// The actor that leaves an instance first.
pub fn first_to_leave<'a>(log: &'a str, instance: &str) -> Option<&'a str> {
    for line in log.split('\n') {
        let step = step_of(line);
        if step.instance == instance && step.verb == "leave" {
            return Some(step.actor);
        }
    }
    None
}
