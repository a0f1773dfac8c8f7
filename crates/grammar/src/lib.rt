//! What the places of refusals mean: which texts have the right form, and where a text ceases to have it.
#![tactic(auto)]

ghost use Rattle.grammar.specs.Law.{OnMount, OnBench, OffBench, InSet};
ghost use Rattle.grammar.specs.Examples.{Examples};

use names::{BenchName, MountName, SettingName, table_stands};
use text::numbers_stand;

/// A text is refused for its name or its form if, and only if, it is not of the right form, and then at the place up to which
/// it begins as a text of the right form does.
pub fn places_mean_what_they_say()
    ensures mount { OnMount }
    ensures bench { OnBench }
    ensures axis { OffBench }
    ensures set { InSet }
    ensures examples { Examples }
{
    numbers_stand();
    table_stands::<MountName>();
    table_stands::<BenchName>();
    table_stands::<SettingName>();
}
