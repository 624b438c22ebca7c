//! A refusal that is caught.

ghost use Rattle.std.specs.Prelude.{◌≡◌, option_map};
ghost use Rattle.std.specs.Option.{option_copied};
ghost use Rattle.es_trace.specs.Events.{caught as caught_said, is_let as is_let_said};

use es_event::Command;
use es_value::Name;

/// The variable that is assigned the refusal's text, and the command that was refused, where `done` is the `let` of a refusal
/// that is caught and `at_hand` the plan's command there.
pub fn caught<'a>(
    at_hand: Option<&'a Command>,
    done: &'a Command,
) -> Option<(&'a Name, &'a Command)>
    ensures { option_map (λ p. (p.0.now, p.1.now)) result ≡ caught_said (option_copied at_hand.entry) done.now }
{
    let command = at_hand?;
    if is_let(command) {
        return None;
    }
    match done {
        Command::Let { to, .. } => Some((to, command)),
        _ => None,
    }
}

fn is_let(command: &Command) -> bool
    ensures { result ≡ is_let_said command.now }
{
    matches!(command, Command::Let { .. })
}
