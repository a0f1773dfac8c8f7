//! What a request asks for, in words.
ghost use Rattle.std.specs.Prelude.{◌≡◌, ◌++◌, false, Some, string_bytes, fold};
ghost use Rattle.queue.specs.Entries.{settled};
ghost use Rattle.reports.specs.Tellings.{words_of, is_known};
ghost use Rattle.explainer.specs.Writing.{Becomes, Says};
ghost use Rattle.explainer.specs.Words.{selection_word, entry_words, comma, with_phrase, entered, with_axis, listed, request_words, refusal_words};

use command::request::{Notice, Refusal, Request, Selection};
use drive::axis::Axis;
use queue::entry::{Batch, Entry};
use reports::Told;
use std::alloc::{AllocError, Global};
use std::fmt;
use std::fmt::Write;

/// What is selected, in words.
#[derive(Clone, Copy)]
struct Selected(Selection);

impl fmt::Display for Selected {
    ghost output = { λ s. Some (selection_word s.0) };

    fn fmt<W: fmt::Write>(&self, f: &mut fmt::Formatter<W>) -> fmt::Result {
        match self.0 {
            Selection::One(axis) => write!(f, "{axis}"),
            Selection::All => write!(f, "all"),
        }
    }
}

/// Parts the next phrase of a list from those before it.
fn add_comma(list: &mut String) -> Result<(), AllocError>
    ensures { Becomes result list.new (string_bytes list.old ++ comma (string_bytes list.old)) }
{
    if !list.is_empty() {
        list.push_str(", ")?;
    }
    Ok(())
}

/// An entry that an axis takes: its operand follows where its code takes one.
fn add_entry(list: &mut String, axis: Axis, entry: Entry) -> Result<(), AllocError>
    ensures { Becomes result list.new (with_phrase (string_bytes list.old) (entry_words axis (settled entry))) }
{
    add_comma(list)?;
    let Entry { code, operand } = entry;
    if code.takes_argument() {
        write!(list, "{axis} {code} {operand}")
    } else {
        write!(list, "{axis} {code}")
    }
}

/// What is placed on an axis.
fn add_batch(list: &mut String, axis: Axis, batch: Option<Batch>) -> Result<(), AllocError>
    ensures { Becomes result list.new (fold with_phrase (string_bytes list.old) (entered axis batch)) }
{
    match batch {
        Some(Batch::One(entry)) => add_entry(list, axis, entry),
        Some(Batch::Two(first, second)) => {
            add_entry(list, axis, first)?;
            add_entry(list, axis, second)
        }
        None => Ok(()),
    }
}

/// What a request does to an axis.
fn add_axis(list: &mut String, request: &Request, axis: Axis) -> Result<(), AllocError>
    ensures { Becomes result list.new (with_axis request.now (string_bytes list.old) axis) }
{
    add_batch(list, axis, request.batch(axis))?;
    if request.clears(axis) {
        add_comma(list)?;
        write!(list, "{axis}")?;
    }
    Ok(())
}

/// What a request does to the axes, in order.
fn list_axes(heap: Global, request: &Request) -> Result<String, AllocError>
    ensures { Says result (listed request.now) }
{
    let mut list = String::new(heap);
    for axis in Axis::ALL {
        add_axis(&mut list, request, axis)?;
    }
    Ok(list)
}

pub(crate) fn request_words(heap: Global, request: &Request) -> Result<String, AllocError>
    ensures { Says result (request_words request.now) }
{
    match request {
        Request::Select(selection) => format!(in heap; "select {}", Selected(*selection)),
        Request::Place { .. } => {
            let list = list_axes(heap, request)?;
            format!(in heap; "place {list}")
        }
        Request::Clear { halt, .. } => {
            let list = list_axes(heap, request)?;
            let end = if *halt { " and halt" } else { "" };
            format!(in heap; "clear {list}{end}")
        }
        Request::Positions(selection) => {
            format!(in heap; "tell positions of {}", Selected(*selection))
        }
        Request::Places(selection) => {
            format!(in heap; "tell free places of {}", Selected(*selection))
        }
        Request::ErrorRecord => String::from_str(heap, "tell the error record"),
    }
}

pub(crate) fn refused(refusal: Refusal) -> Told
    ensures words { words_of result ≡ refusal_words refusal }
    ensures refused { is_known result ≡ false }
{
    let Notice { number, place, .. } = refusal.notice();
    Told::Refused { number, place }
}
