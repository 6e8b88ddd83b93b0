// The phenomenon, which a record keeps as a number from 1 to 17, and the volcano of an eruption.
#![tactic(auto, using(pens::proofs::PenLaws::in_turn), unfolding(pens::specs::Pens::strokes, pens::specs::Pens::spaced, figures::specs::Codes::behind_one, message::specs::Reports::phenomenon_words))]

ghost use Rattle.std.specs.Prelude.{true, ◌≡◌, ◌≤◌};
ghost use Rattle.figures.specs.Codes.{spell_code};
ghost use Rattle.message.specs.Limits.{ash_cloud, eruption};
ghost use Rattle.message.specs.Reports.{good_volcano, mount_words, volcano_words, phenomenon_words};
ghost use Rattle.pens.specs.Pens.{Words};
ghost use Rattle.writer_sections.specs.Moves.{Moved};
ghost use Rattle.writer_sections.specs.Sections.{GoodMount, GoodPhenomenon, first_word, second_word, named_words};

use crate::pen::Pen;
use message::{ASH_ERUPTION, Name, SEV_ICE_FZRA, Volcano};

// The first word of a phenomenon, as `SEV` of `SEV TURB`.
#[tactic(auto, using(crate::proofs::Tables::ranged), unfolding(message::specs::Reports::phenomena, lists::specs::Lists::same, figures::specs::Codes::behind_one))]
fn first_word(n: u8) -> u64
    requires { (1 ≤ n) × (n ≤ eruption) }
    ensures { spell_code result ≡ first_word n }
{
    match n {
        1..=2 => vocabulary::OBSC,
        3..=4 => vocabulary::EMBD,
        5..=6 => vocabulary::FRQ,
        7..=8 => vocabulary::SQL,
        9..=12 => vocabulary::SEV,
        13..=14 => vocabulary::HVY,
        15 => vocabulary::RDOACT,
        _ => vocabulary::VA,
    }
}

// The second word, as `TURB` of `SEV TURB`. That of an eruption is longer than a code, and is not asked for here.
#[tactic(auto, using(crate::proofs::Tables::ranged), unfolding(message::specs::Reports::phenomena, lists::specs::Lists::same, figures::specs::Codes::behind_one))]
fn second_word(n: u8) -> u64
    requires { (1 ≤ n) × (n ≤ ash_cloud) }
    ensures { spell_code result ≡ second_word n }
{
    match n {
        1 | 3 | 5 | 7 => vocabulary::TS,
        2 | 4 | 6 | 8 => vocabulary::TSGR,
        9 => vocabulary::TURB,
        10..=11 => vocabulary::ICE,
        12 => vocabulary::MTW,
        13 => vocabulary::DS,
        14 => vocabulary::SS,
        _ => vocabulary::CLD,
    }
}

impl Pen<'_> {
    // The words of a phenomenon, without the volcano of an eruption. Only `SEV ICE (FZRA)` has a third.
    fn named(&mut self, n: u8)
        requires { (1 ≤ n) × (n ≤ eruption) }
        ensures { Moved (Words (named_words n)) self.old self.new }
    {
        self.fixed(first_word(n));
        if n == ASH_ERUPTION {
            self.word(&vocabulary::ERUPTION);
            return;
        }
        self.fixed(second_word(n));
        if n == SEV_ICE_FZRA {
            self.fixed(vocabulary::FREEZING_RAIN);
        }
    }

    // `MT` and the name of the mountain, if it has one.
    fn mount(&mut self, n: Name)
        requires { GoodMount n }
        ensures { Moved (Words (mount_words n)) self.old self.new }
    {
        if n.count != 0 {
            self.fixed(vocabulary::MT);
            self.name(n);
        }
    }

    // Behind `VA ERUPTION`: the mountain, where it stands, and its cloud of ash.
    fn volcano(&mut self, v: Volcano)
        requires { good_volcano v ≡ true }
        ensures { Moved (Words (volcano_words v)) self.old self.new }
    {
        self.mount(v.name);
        self.fixed(vocabulary::PSN);
        self.point(v.position);
        self.fixed(vocabulary::VA);
        self.fixed(vocabulary::CLD);
    }

    pub(crate) fn phenomenon(&mut self, n: u8, v: Volcano)
        requires { GoodPhenomenon n v }
        ensures { Moved (Words (phenomenon_words n v)) self.old self.new }
    {
        self.named(n);
        if n == ASH_ERUPTION {
            self.volcano(v);
        }
    }
}
