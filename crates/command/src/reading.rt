//! What one text asks for, on either port and in Set.
ghost use Rattle.std.specs.Prelude.{◌≡◌};
ghost use Rattle.command.specs.Reading.{fits, on_port, read, read_setting};

use crate::bench::read_bench;
use crate::mount::read_mount;
use crate::request::{Command, Context, Port, Refusal, Setting};
use crate::setting::read_set;

/// The most bytes that a text has.
pub const LONGEST: usize = 160;

/// Whether a text has the right length.
fn has_length(text: &[u8]) -> bool
    ensures { result ≡ fits text.now }
{
    (1..=LONGEST).contains(&text.len())
}

/// By the port, a text of the right length.
fn read_on(port: Port, text: &[u8], context: &Context) -> Result<Command, Refusal>
    ensures { result ≡ on_port port context.now.selection context.now.last context.now.settings.now text.now }
{
    match port {
        Port::M => {
            let request = read_mount(text, context.selection, context.settings)?;
            Ok(Command {
                request,
                last: context.last,
            })
        }
        Port::P => read_bench(text, context.last),
    }
}

/// What a text of a command asks for, or why it is refused.
#[tactic(auto, unfolding(crate::specs::Reading::read))]
pub fn read(port: Port, text: &[u8], context: &Context) -> Result<Command, Refusal>
    ensures { result ≡ read port context.now.selection context.now.last context.now.settings.now text.now }
{
    if has_length(text) {
        read_on(port, text, context)
    } else {
        Err(Refusal::Length)
    }
}

/// What a text of Set asks for, or why it is refused.
#[tactic(auto, unfolding(crate::specs::Reading::read_setting))]
pub fn read_setting(text: &[u8]) -> Result<Setting, Refusal>
    ensures { result ≡ read_setting text.now }
{
    if has_length(text) {
        read_set(text)
    } else {
        Err(Refusal::Length)
    }
}
