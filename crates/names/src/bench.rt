//! The names of port P.
//! By a rule of the project slice patterns match their bytes.
ghost use Rattle.names.specs.Bench.{letters, index, bench_names, bench_apart, bench_in_order};

use crate::Name;

/// A name of port P.
#[derive(Clone, Copy, Debug, PartialEq, Eq)]
pub enum BenchName {
    Pr,
    Pa,
    St,
    Ws,
    Tp,
}

impl Name for BenchName {
    ghost table = { bench_names };

    ghost index = { index };

    ghost letters = { letters };

    ghost apart = { bench_apart };

    ghost in_order = { bench_in_order };

    fn index(self) -> usize {
        self as usize
    }

    fn letters(self) -> &'static str {
        match self {
            BenchName::Pr => "PR",
            BenchName::Pa => "PA",
            BenchName::St => "ST",
            BenchName::Ws => "WS",
            BenchName::Tp => "TP",
        }
    }

    #[tactic(auto, unfolding(crate::specs::Bench::bench_names))]
    fn leading(text: &[u8]) -> Option<(BenchName, &[u8])> {
        match text {
            [b'P' | b'p', b'R' | b'r', rest @ ..] => Some((BenchName::Pr, rest)),
            [b'P' | b'p', b'A' | b'a', rest @ ..] => Some((BenchName::Pa, rest)),
            [b'S' | b's', b'T' | b't', rest @ ..] => Some((BenchName::St, rest)),
            [b'W' | b'w', b'S' | b's', rest @ ..] => Some((BenchName::Ws, rest)),
            [b'T' | b't', b'P' | b'p', rest @ ..] => Some((BenchName::Tp, rest)),
            _ => None,
        }
    }

    #[tactic(auto, unfolding(crate::specs::Bench::bench_names))]
    fn misfit(text: &[u8]) -> usize {
        match text {
            [b'P' | b'p' | b'S' | b's' | b'W' | b'w' | b'T' | b't', ..] => 1,
            _ => 0,
        }
    }
}
