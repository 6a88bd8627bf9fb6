// The questions that an advance asks of its steps, its record and its nurses.
ghost use Rattle.std.specs.Prelude.{◌≡◌, ◌&&◌, Bool, ℕ, List, map, ◌+◌, ◌<◌, leb, ltb, length};
ghost use Rattle.numbers.specs.Range.{up_from, all};
ghost use Rattle.numbers.specs.Patterns.{unpaired};
ghost use Rattle.fields.specs.Fields.{nurses};
ghost use Rattle.nights.specs.Own.{pattern_list};
ghost use Rattle.days.specs.Days.{day_list};
ghost use Rattle.history.specs.Record.{among, hers, names, lacking};
ghost use Rattle.removals.specs.Removals.{slot};
ghost use Rattle.search.specs.Stored.{slot_at, held, names_at, sound_stored};
ghost use Rattle.refusals.specs.Refusals.{refusal_in, unless};
ghost use Rattle.refusals.specs.Questions as question;
ghost use Rattle.phases.specs.CodeQuestions.{phase_of, slot_in};

use fields::sizes::NURSES;
use fields::{Body, WardNurse};
use numbers::pattern;
use refusals::Refusal;
use refusals::question::Question;
use removals::Removal;
use search::{Record, Searched};

// The phase of which a record is asked: nights, or days over these nights, one pattern for each nurse.
#[derive(Clone, Copy)]
pub struct AskedPhase<'a> {
    pub ward: &'a Body<'a>,
    pub which: Searched<&'a [u64; NURSES]>,
}

// k is allowed, and so are the steps so far with k more.
fn steps_allowed(steps: u32, k: u32) -> bool
    ensures { result ≡ (leb k 10000 && leb (steps + k) 1000000) }
{
    k <= 10000 && u64::from(steps) + u64::from(k) <= 1000000
}

// Whether p is one of her own by day, over her pattern by night: it has no pair.
fn is_days_own(her: &WardNurse, night: u64, p: u64) -> bool
    ensures { result ≡ among (map unpaired (day_list her.now.ward.numbers.now her.now.index night)) p }
{
    pattern::pair_of(p) == 0 && days::is_day_pattern(her, night, pattern::days_of(p))
}

// Whether p is one of her own.
fn is_hers(which: Searched<&[u64; NURSES]>, her: &WardNurse, p: u64) -> bool
    ensures { result ≡ among ((phase_of which.entry her.now.ward.numbers.now).patterns her.now.index) p }
{
    // By `match`: closures handed in would be made at each call, for a line each. With a trait and an impl for each search, `AskedPhase`
    // and its methods would be generic, with their contracts, for two lines.
    match which {
        Searched::Nights => nights::is_own(her, p),
        Searched::Days(nights) => is_days_own(her, nights[her.index], p),
    }
}

// Whether a slot holds one of her own, or none.
fn slot_hers(which: Searched<&[u64; NURSES]>, her: &WardNurse, held: Option<u64>) -> bool
    ensures { result ≡ hers (phase_of which.entry her.now.ward.numbers.now) her.now.index (slot_in held) }
{
    match held {
        Some(p) => is_hers(which, her, p),
        None => true,
    }
}

impl AskedPhase<'_> {
    // Whether each placed nurse holds one of her own.
    fn slots_hers(&self, rec: Record) -> bool
        ensures { result ≡ all (λ i. hers (phase_of self.now.which self.now.ward.now.numbers.now) i (slot_at rec i)) (up_from 0 (phase_of self.now.which self.now.ward.now.numbers.now).nurses) }
    {
        (0..self.ward.nurses()).all(|i| {
            slot_hers(self.which, &self.ward.nurse_at(i), rec.slot(i))
        })
    }

    // Whether a removal names a nurse, with one of hers or with none.
    fn removal_names(&self, x: Removal) -> bool
        ensures { result ≡ names (phase_of self.now.which self.now.ward.now.numbers.now) x.nurse (slot x.has x.pattern) }
    {
        let Some(i) = (x.nurse as usize).checked_sub(1) else {
            return false;
        };
        i < self.ward.nurses() && slot_hers(self.which, &self.ward.nurse_at(i), x.slot())
    }

    // Whether each removal held names a nurse, with one of hers or with none.
    fn removals_name(&self, rec: Record) -> bool
        ensures { result ≡ all (names_at (phase_of self.now.which self.now.ward.now.numbers.now) rec.removals) (up_from 0 (held (phase_of self.now.which self.now.ward.now.numbers.now).tabu rec)) }
    {
        let n = rec.held(self.ward.tabu());
        rec.removals[..n].iter().all(|x| self.removal_names(*x))
    }

    // Each placed nurse holds one of her own, each removal held names a nurse, and unused fields are 0.
    fn record_sound(&self, rec: Record) -> bool
        ensures { result ≡ sound_stored (phase_of self.now.which self.now.ward.now.numbers.now) rec }
    {
        let zero = rec.unused_zero(self.ward.nurses(), self.ward.tabu());
        self.slots_hers(rec) && (self.removals_name(rec) && zero)
    }

    // Question 11.
    pub fn record_asked(&self, rec: Record) -> Result<(), Refusal>
        ensures { refusal_in result ≡ unless (sound_stored (phase_of self.now.which self.now.ward.now.numbers.now) rec) question.record_sound 0 }
    {
        Question::Record.unless(self.record_sound(rec), 0)
    }
}

// Question 7. As of question 8, all that stands here is the call: what the two ask is not alike.
pub fn steps_asked(steps: u32, k: u32) -> Result<(), Refusal>
    ensures { refusal_in result ≡ unless (leb k 10000 && leb (steps + k) 1000000) question.steps 0 }
{
    Question::Steps.unless(steps_allowed(steps, k), 0)
}

// Question 10 of m nurses, by a test of whether each has a pattern.
pub fn patterns_asked<F: Fn(usize) -> bool>(m: usize, has: F) -> Result<(), Refusal>
    requires { (i : ℕ) → i < m → F.pre has i }
    ensures { (lists : ℕ → List ℕ) → ((i : ℕ) (b : Bool) → i < m → F.post has i b → b ≡ ltb 0 (length (lists i))) → refusal_in result ≡ lacking lists (up_from 0 m) }
{
    for i in 0..m {
        if !has(i) {
            return Err(Question::Patterns.at(i + 1));
        }
    }
    Ok(())
}

// Question 10 by night.
pub fn nights_lacking(w: &Body) -> Result<(), Refusal>
    ensures { refusal_in result ≡ lacking (pattern_list w.now.numbers.now) (up_from 0 (nurses w.now.numbers.now)) }
{
    patterns_asked(w.nurses(), |i| {
        nightlists::some::has_pattern(&w.nurse_at(i))
    })
}
