// Opening's rules 16, 1 to 8, 18 and 21: all is judged before anything is stored.
ghost use Rattle.std.specs.Prelude.{◌≡◌, ℕ, ◌≤◌, length, IfOk};
ghost use Rattle.words.specs.Bytes.{Small};
ghost use Rattle.layout.specs.Place.{layout_of};
ghost use Rattle.layout.specs.declared.Told.{Told};
ghost use Rattle.machine.specs.Rules.{answer};
ghost use Rattle.machine.specs.state.Answer.{number_of};
ghost use Rattle.machine.specs.calls.Opening.{Extent, number_open, tests_open, info_rules, map_rules, open_number};
ghost use Rattle.machine.specs.calls.Opening.{figures_in, lanes_lost, lane_padded};
ghost use Rattle.lanes.specs.Fit.{MapFit};
ghost use Rattle.lanes.specs.View.{layout};
ghost use Rattle.once.specs.Once.{cleared};
ghost use Rattle.judge.specs.Judge.{extent, work_left, words_number};

use super::info::info_block;
use format::map::{MapState, judge_word};
use format::numbers::{LaneNo, SectorNo};
use infoblock::{figures_of, flags_allowed, info_allowed};
use lanes::{ArenaView, map_word};
use layout::{Figures, Told, distance_allowed, length_allowed};
use machine::refusal::Refusal;
use once::blocks_once;

// Rule 16, of the layout that is told, and rules 1 to 4: the figures of the info block that counts.
fn judge_info(a: &[u8], told: Told) -> Result<Figures, Refusal>
    ensures answer_value { (room : Extent) → number_of result ≡ answer number_open (tests_open told a.now room) info_rules }
    ensures figures_value { IfOk result (λ f. f ≡ figures_in a.now) }
{
    if !distance_allowed(told.distance) {
        return Err(Refusal::BadHandle);
    }
    let n = a.len();
    if !length_allowed(n) {
        return Err(Refusal::WrongLength);
    }
    let Some(b) = info_block(a) else {
        return Err(Refusal::NoInfoBlock);
    };
    if !info_allowed(b, told, n) {
        return Err(Refusal::ForbiddenFigure);
    }
    if !flags_allowed(b) {
        return Err(Refusal::FlagsSet);
    }
    Ok(figures_of(b))
}

// Rule 6: whether some lane is not readable.
fn lanes_lost(view: &ArenaView) -> bool
    ensures { result ≡ lanes_lost (layout view.now) view.now.bytes.now }
{
    (0..view.figures.lanes).any(|l| !view.lane_readable(LaneNo(l)))
}

// Rules 7 and 18, of the map's words in one pass: 7 if some word names a block past the last, else 18 if some word is sloppy.
fn judge_words(a: &[u8], f: Figures) -> Result<(), Refusal>
    requires { MapFit f (length a.now) }
    ensures { (d : ℕ) → number_of result ≡ words_number (layout_of d f) a.now }
{
    let mut sloppy = false;
    for s in 0..f.sectors {
        let word = map_word(a, f, SectorNo(s));
        match MapState::of_word(word) {
            MapState::Unwritten => sloppy |= word != 0,
            _ => judge_word(f.blocks, word)?,
        }
    }
    if sloppy {
        return Err(Refusal::Sloppy);
    }
    Ok(())
}

// Rule 18, of the flog: whether some lane's padding is not zero.
fn lane_padded(view: &ArenaView) -> bool
    ensures { result ≡ lane_padded (layout view.now) view.now.bytes.now }
{
    (0..view.figures.lanes).any(|l| view.padding_set(LaneNo(l)))
}

// Rules 6, 7, 18 and 8. The first blocks bytes of the work buffer are 0 afterwards.
fn judge_map(view: ArenaView, work: &mut [u8]) -> Result<(), Refusal>
    requires { (view.figures ≡ figures_in view.bytes.now) × (view.figures.blocks ≤ length work.old) }
    ensures result_value { (told : Told) (room : Extent) → told.distance ≡ view.entry.distance → Small view.entry.bytes.now
        → number_of result ≡ answer number_open (tests_open told view.entry.bytes.now room) map_rules }
    ensures work_after { work.new ≡ cleared view.entry.figures.blocks work.old }
{
    work[..view.figures.blocks as usize].fill(0);
    if lanes_lost(&view) {
        return Err(Refusal::LostLane);
    }
    judge_words(view.bytes, view.figures)?;
    if lane_padded(&view) {
        return Err(Refusal::Sloppy);
    }
    if !blocks_once(view, work) {
        return Err(Refusal::NotValid);
    }
    Ok(())
}

// Rules 16, 1 to 8, 18 and 21, as an opening is told, with a table of so many records; the figures where none applies.
pub fn judge(a: &[u8], told: Told, work: &mut [u8], records: usize) -> Result<Figures, Refusal>
    ensures answer_value { number_of result ≡ open_number told a.now (extent (length work.old) records) }
    ensures figures_value { IfOk result (λ f. f ≡ figures_in a.now) }
    ensures work_after { work.new ≡ work_left told a.now work.old }
{
    let f = judge_info(a, told)?;
    if work.len() < f.blocks as usize {
        return Err(Refusal::ShortWorkBuffer);
    }
    let view = ArenaView {
        bytes: a,
        figures: f,
        distance: told.distance,
    };
    if records < f.lanes as usize {
        work[..f.blocks as usize].fill(0);
        return Err(Refusal::ShortTable);
    }
    judge_map(view, work)?;
    Ok(f)
}
