//! Words of sixteen contacts, as they are sampled and as they are output, and the contacts that kill an axis.
#![tactic(auto)]

pub mod kill;
pub mod word;

#[cfg(test)]
mod tests {
    use crate::kill::KillInputs;
    use crate::word::{Contact, bit, with_bit};

    #[test]
    fn words_hit_kill_inputs(rt: HostRuntime) {
        let low = Contact::new(2);
        let high = Contact::new(15);
        let kills = KillInputs::none()
            .with(low, false)
            .with(high, false)
            .with(low, true);
        for (word, hit) in [
            (0x8000, false),
            (0xfffb, false),
            (0x8004, true),
            (0x7ffb, true),
            (0, true),
        ] {
            assert_eq!(rt; kills.is_hit(word), hit);
            assert_eq!(rt; bit(word, low), with_bit(word, low, true) == word);
            assert_eq!(rt; bit(with_bit(word, high, false), high), false);
        }
        assert_eq!(rt; KillInputs::none().is_hit(0xffff), false);
    }
}
