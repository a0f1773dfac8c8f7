//! Names at the front of a command text, in letters of either case, each kind over a table of its own.
#![tactic(auto)]

ghost use Rattle.std.specs.Prelude.{◌≡◌, ℕ, ◌≤◌, List, length, IfOk, IfErr};
ghost use Rattle.names.specs.Tables.{Row, named, seen};
ghost use Rattle.names.specs.Laws.{Apart, InOrder, ApartIsLawful};
ghost use Rattle.names.specs.Places.{held, lead, stop};

mod bench;
mod mount;
mod setting;

pub use bench::BenchName;
pub use mount::MountName;
pub use setting::SettingName;

/// A kind of name, over a table of its own.
pub trait Name: Copy {
    /// A row for each name, in their order.
    ghost table: { List (Row Self) };

    ghost index: { Self → ℕ };

    ghost letters: { Self → List ℕ };

    /// The name's row in the table, counted from 0.
    fn index(self) -> usize
        ensures { result ≡ index self };

    /// The name's bytes.
    // The kinds match: a `Display` of each would hold the same rows.
    fn letters(self) -> &'static str
        ensures { result.now ≡ letters self };

    /// The name that leads the text, and the operands after it.
    /// By a rule of the project slice patterns match its bytes, and the operands are the rest of the slice.
    fn leading(text: &[u8]) -> Option<(Self, &[u8])>
        ensures { held result ≡ lead table text.now };

    /// How far a text that no name leads goes along a name.
    fn misfit(text: &[u8]) -> usize
        ensures { result ≡ stop table text.now };

    /// No name begins or equals another.
    ghost apart: { Apart table };

    /// Each name stands in the row that its index says.
    ghost in_order: { InOrder table index letters };
}

/// A name, and the operands after it.
// No `impl Model`: with one, a struct with a lifetime cannot be `Copy`.
#[derive(Clone, Copy, Debug, PartialEq, Eq)]
pub struct Named<'a, N> {
    pub name: N,
    pub rest: &'a [u8],
}

/// The name that leads the text, and the operands after it; else the place of the first byte with which no name goes on.
#[tactic(auto, using(crate::proofs::ByPlace::named_by_place, crate::proofs::Rests::stop_within))]
pub fn name_of<N: Name>(text: &[u8]) -> Result<Named<'_, N>, usize>
    ensures value { seen result ≡ named N.table text.now }
    ensures rest { IfOk result (λ n. length n.rest.now ≤ length text.now) }
    ensures place { IfErr result (λ p. p ≤ length text.now) }
{
    let (name, rest) = N::leading(text).ok_or_else(|| N::misfit(text))?;
    Ok(Named { name, rest })
}

/// No name begins or equals another, and each stands in the row that its index says.
pub fn table_stands<N: Name>()
    ensures apart { Apart N.table }
    ensures rows { InOrder N.table N.index N.letters }
{}

/// What follows for any table from its names being apart.
pub fn apart_is_lawful<N>()
    ensures { ApartIsLawful N }
{}
