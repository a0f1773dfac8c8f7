//! Texts of port P.
ghost use Rattle.std.specs.Prelude.{◌≡◌, ◌<◌, ◌≤◌, length, IfSome};
ghost use Rattle.command.specs.Bench.{digit_at, addressed, address, moving, asked, to_address, bench};

use crate::operands::read_whole;
use crate::request::{Command, Refusal, Request, Selection, alone, bare, enters};
use crate::tail::Tail;
use drive::axis::Axis;
use names::BenchName;
use queue::entry::Code;

/// The most counts of a move.
const MOST_COUNTS: i64 = 1_000_000_000;

/// The axis that a text goes to, and how many bytes name it.
#[derive(Clone, Copy)]
pub(crate) struct Address {
    pub(crate) axis: Axis,
    pub(crate) width: usize,
}

/// The axis of a number that is counted from 1.
fn numbered(number: u8, width: usize) -> Option<Address>
    ensures value { result ≡ addressed width number }
    ensures same { IfSome result (λ g. g.width ≡ width) }
{
    let index = number.checked_sub(1)?;
    let axis = Axis::at(usize::from(index))?;
    Some(Address { axis, width })
}

/// The digit at index `i`, if one stands there.
fn digit_at(text: &[u8], i: usize) -> Option<u8>
    ensures value { result ≡ digit_at text.now i }
    ensures small { IfSome result (λ d. (d ≤ 9) × (i < length text.now)) }
{
    match text.get(i) {
        Some(digit @ b'0'..=b'9') => Some(digit - b'0'),
        _ => None,
    }
}

/// The axis that the leading digits name, or the last one.
fn address_of(text: &[u8], last: Axis) -> Option<Address>
    ensures value { result ≡ address last text.now }
    ensures within { IfSome result (λ g. g.width ≤ length text.now) }
{
    match (digit_at(text, 0), digit_at(text, 1), digit_at(text, 2)) {
        (None, _, _) => Some(Address {
            axis: last,
            width: 0,
        }),
        (Some(ones), None, _) => numbered(ones, 1),
        (Some(tens), Some(ones), None) => numbered(tens * 10 + ones, 2),
        (Some(_), Some(_), Some(_)) => None,
    }
}

/// A move and a GO, by a number of counts or by none.
fn read_move(code: Code, axis: Axis, rest: Tail) -> Result<Request, Refusal>
    ensures { result ≡ moving code axis rest.entry.at rest.entry.bytes.now }
{
    let counts = match rest.bytes {
        [] => 0,
        _ => read_whole(rest, -MOST_COUNTS, MOST_COUNTS)?,
    };
    Ok(Request::Place {
        code,
        operands: alone(axis, counts),
        then_go: true,
    })
}

/// The table of port P.
fn read_operand(name: BenchName, axis: Axis, rest: Tail) -> Result<Request, Refusal>
    ensures { result ≡ asked name axis rest.entry.at rest.entry.bytes.now }
{
    let request = match name {
        BenchName::Pr => return read_move(Code::Mr, axis, rest),
        BenchName::Pa => return read_move(Code::Ma, axis, rest),
        BenchName::St => Request::Clear {
            operands: bare(axis),
            halt: true,
        },
        BenchName::Ws => enters(Code::Ws, bare(axis)),
        BenchName::Tp => Request::Positions(Selection::One(axis)),
    };
    rest.end()?;
    Ok(request)
}

/// What the text asks of the axis that it goes to.
fn read_addressed(text: &[u8], address: Address) -> Result<Command, Refusal>
    requires { address.width ≤ length text.now }
    ensures { result ≡ to_address text.now address }
{
    let Address { axis, width } = address;
    let (name, rest) = Tail::whole(text).skip(width).name()?;
    let request = read_operand(name, axis, rest)?;
    Ok(Command {
        request,
        last: axis,
    })
}

/// What a text on port P asks for.
pub(crate) fn read_bench(text: &[u8], last: Axis) -> Result<Command, Refusal>
    ensures { result ≡ bench last text.now }
{
    let address = address_of(text, last).ok_or(Refusal::Name(0))?;
    read_addressed(text, address)
}
