// The fixed words of the paper, each once: whoever reads or writes one names it here. A word of at most seven bytes is its code, a 1 and then
// its bytes, so that one number tells it and puts it. They stay numbers, and no slices or enums: the reader works out the code of a word once,
// and telling it from any fixed word is then one comparison of numbers and no walk over its bytes.
#![tactic(auto)]

ghost use Rattle.std.specs.Prelude.{◌≡◌};
ghost use Rattle.lists.specs.Lists.{same as same_as};

// The types of bulletin.
pub const WS: u64 = 0x01_57_53;

pub const WV: u64 = 0x01_57_56;

// First line.
pub const SIGMET: u64 = 0x01_53_49_47_4d_45_54;

pub const VALID: u64 = 0x01_56_41_4c_49_44;

// The closing words of an area's name.
pub const FIR: u64 = 0x01_46_49_52;

pub const FIR_UIR: u64 = 0x01_46_49_52_2f_55_49_52;

pub const CTA: u64 = 0x01_43_54_41;

// Tests and cancellations. `DISREGARD` has more than seven bytes, and stands below.
pub const TEST: u64 = 0x01_54_45_53_54;

pub const TEST_STOP: u64 = 0x01_54_45_53_54_2e;

pub const THIS: u64 = 0x01_54_48_49_53;

pub const IS: u64 = 0x01_49_53;

pub const A: u64 = 0x01_41;

pub const SIGMET_COMMA: u64 = 0x01_53_49_47_4d_45_54_2c;

pub const PLEASE: u64 = 0x01_50_4c_45_41_53_45;

pub const CNL: u64 = 0x01_43_4e_4c;

// Phenomena. `ERUPTION` stands below.
pub const OBSC: u64 = 0x01_4f_42_53_43;

pub const EMBD: u64 = 0x01_45_4d_42_44;

pub const FRQ: u64 = 0x01_46_52_51;

pub const SQL: u64 = 0x01_53_51_4c;

pub const TS: u64 = 0x01_54_53;

pub const TSGR: u64 = 0x01_54_53_47_52;

pub const SEV: u64 = 0x01_53_45_56;

pub const TURB: u64 = 0x01_54_55_52_42;

pub const ICE: u64 = 0x01_49_43_45;

pub const FREEZING_RAIN: u64 = 0x01_28_46_5a_52_41_29;

pub const MTW: u64 = 0x01_4d_54_57;

pub const HVY: u64 = 0x01_48_56_59;

pub const DS: u64 = 0x01_44_53;

pub const SS: u64 = 0x01_53_53;

pub const RDOACT: u64 = 0x01_52_44_4f_41_43_54;

pub const CLD: u64 = 0x01_43_4c_44;

pub const VA: u64 = 0x01_56_41;

pub const MT: u64 = 0x01_4d_54;

pub const PSN: u64 = 0x01_50_53_4e;

// Observation.
pub const OBS: u64 = 0x01_4f_42_53;

pub const FCST: u64 = 0x01_46_43_53_54;

pub const AT: u64 = 0x01_41_54;

// Location.
pub const OF: u64 = 0x01_4f_46;

pub const AND: u64 = 0x01_41_4e_44;

pub const WI: u64 = 0x01_57_49;

pub const DASH: u64 = 0x01_2d;

pub const ENTIRE: u64 = 0x01_45_4e_54_49_52_45;

// Level: words, and what stands before or behind a number in its word.
pub const TOP: u64 = 0x01_54_4f_50;

pub const ABV: u64 = 0x01_41_42_56;

pub const FL: u64 = 0x01_46_4c;

pub const SURFACE: u64 = 0x01_53_46_43_2f;

pub const SURFACE_FLIGHT: u64 = 0x01_53_46_43_2f_46_4c;

pub const FT: u64 = 0x01_46_54;

// Ending: words, the sixteen points of the compass, and the units behind a speed.
pub const MOV: u64 = 0x01_4d_4f_56;

pub const STNR: u64 = 0x01_53_54_4e_52;

pub const N: u64 = 0x01_4e;

pub const NNE: u64 = 0x01_4e_4e_45;

pub const NE: u64 = 0x01_4e_45;

pub const ENE: u64 = 0x01_45_4e_45;

pub const E: u64 = 0x01_45;

pub const ESE: u64 = 0x01_45_53_45;

pub const SE: u64 = 0x01_53_45;

pub const SSE: u64 = 0x01_53_53_45;

pub const S: u64 = 0x01_53;

pub const SSW: u64 = 0x01_53_53_57;

pub const SW: u64 = 0x01_53_57;

pub const WSW: u64 = 0x01_57_53_57;

pub const W: u64 = 0x01_57;

pub const WNW: u64 = 0x01_57_4e_57;

pub const NW: u64 = 0x01_4e_57;

pub const NNW: u64 = 0x01_4e_4e_57;

pub const KT: u64 = 0x01_4b_54;

pub const KMH: u64 = 0x01_4b_4d_48;

pub const INTSF: u64 = 0x01_49_4e_54_53_46;

pub const WKN: u64 = 0x01_57_4b_4e;

pub const NC: u64 = 0x01_4e_43;

// The two words that are longer than a code.
pub const ERUPTION: [u8; 8] = *b"ERUPTION";

pub const DISREGARD: [u8; 9] = *b"DISREGARD";

// Is it the same word? It is asked of the two that have no code.
#[tactic(auto, using(lists::proofs::Library::sames))]
pub fn same_word(w: &[u8], k: &[u8]) -> bool
    ensures { result ≡ same_as w.now k.now }
{
    w == k
}
