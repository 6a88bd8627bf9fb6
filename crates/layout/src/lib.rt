// The layout as a walk: the field that is wanted at a place, and the place after a number.
#![tactic(auto)]

ghost use Rattle.std.specs.Prelude.{◌≡◌, ◌+◌, ◌-◌, ◌^◌, ◌<◌, ℕ};
ghost use Rattle.layout.specs.Grammar.{failed_by};
ghost use Rattle.layout.specs.CodeAsked.{asked};
ghost use Rattle.layout.specs.CodeWant.{wanted, after, SmallField};
ghost use Rattle.layout.specs.Layout;
ghost use Rattle.layout.specs.CodePlace.{tree, moved, sized, inner_left, outer_left, turn};
ghost use Rattle.layout.specs.declared.Cursor.{Cursor};

use refusals::question::Question;

// The last edition that is read.
const LAST_EDITION: u64 = 2;

// What a number must fit: a range and, for a duty, the duty before it.
#[derive(Clone, Copy)]
pub struct Field {
    pub least: u64,
    pub most: u64,
    pub after: Option<u64>,
}

// The numbers on which the layout depends.
#[derive(Clone, Copy)]
pub struct Head {
    pub m: u64,
    pub n: u64,
    pub r: u64,
    // No enum, since it is an order: a later edition has all that an earlier one has, the code asks `edition < 2`, and the file holds the number.
    pub edition: u64,
}

// The field of the next number, in the file's order.
#[derive(Clone, Copy)]
pub enum Place {
    // The first number: m, or 0 before the number of a later edition, and m after that.
    First,
    Edition,
    // The sizes: m, n, r.
    Nurses,
    Days,
    Groups,
    // The rules: V, L, g1 to g3, TL, D, the weights.
    MostNights,
    LongestRun,
    Gap,
    Tabu,
    LongestDays,
    Weight,
    // A nurse's.
    FirstDuty,
    NextDuty,
    LeastNightsOf,
    MostNightsOf,
    LeastRestsOf,
    MostRestsOf,
    Mark,
    // A group's.
    Members,
    // A day's, and in it a group's.
    NightNeed,
    DayNeed,
    NightLow,
    NightHigh,
    DayLow,
    DayHigh,
    // Of the pairs, from edition two on: their count, and a pair's first day.
    PairCount,
    PairDay,
    // After the last number.
    End,
}

// A place in the layout: `outer` rows and `inner` numbers or pairs are left after this one, and `before` is the number before. Beside the place and not
// in each of its 26 cases.
#[derive(Clone, Copy)]
pub struct Cursor {
    pub place: Place,
    pub outer: u64,
    pub inner: u64,
    pub before: u64,
    pub head: Head,
}

// Questions 3 and 4 of v: its range, and that a duty is 3 exactly after a 2.
pub fn ask(f: Field, v: u64) -> Result<(), Question>
    ensures { asked result ≡ failed_by f v }
{
    if !(f.least..=f.most).contains(&v) {
        return Err(Question::Range);
    }
    match f.after {
        Some(2) => { if v == 3 { Ok(()) } else { Err(Question::Duty) } }
        Some(_) => { if v == 3 { Err(Question::Duty) } else { Ok(()) } }
        None => Ok(()),
    }
}

fn range(least: u64, most: u64) -> Option<Field>
    ensures { result ≡ Some (Layout.range least most) }
{
    Some(Field {
        least,
        most,
        after: None,
    })
}

// Every one of m nurses.
fn all(m: u64) -> u64
    requires { 2 ^ m - 1 < 2 ^ 49 }
    ensures { result ≡ 2 ^ m - 1 }
{
    let bit: u64 = 1 << m;
    bit - 1
}

// The pairs of a ward at most.
fn most_pairs(n: u64) -> u64
    ensures { result ≡ Layout.pairs_most n }
{
    if n == 1 { 0 } else { 10 }
}

// A pair's first day, above the one before, and below the last of n days.
fn pair_day(before: u64, n: u64) -> Option<Field>
    requires { before + 1 < 2 ^ 49 }
    ensures { result ≡ Some (Layout.range (before + 1) (n - 1)) }
{
    let least = before + 1;
    range(least, n.saturating_sub(1))
}

// The field of the next number, or none after the last. One match of 26 arms, so longer than other functions: a line a place, as in `step`.
#[tactic(auto, unfolding(crate::specs::CodePlace::tree, crate::specs::Layout::ward))]
pub fn wanted_at(c: Cursor) -> Option<Field>
    requires { SmallField (wanted (tree c)) }
    ensures { result ≡ wanted (tree c) }
{
    let place = c.place;
    let before = c.before;
    let m = c.head.m;
    let n = c.head.n;
    match place {
        Place::First => range(0, 48),
        Place::Edition => range(2, LAST_EDITION),
        Place::Nurses => range(1, 48),
        Place::Days => range(1, 31),
        Place::Groups => range(0, 16),
        Place::MostNights => range(0, 15),
        Place::LongestRun => range(1, 3),
        Place::Gap => range(1, 5),
        Place::Tabu => range(0, 64),
        Place::LongestDays => range(1, 6),
        Place::Weight => range(1, 100),
        Place::FirstDuty => range(0, 4),
        Place::NextDuty => Some(Field {
            least: 0,
            most: 4,
            after: Some(before),
        }),
        Place::LeastNightsOf => range(0, 15),
        Place::MostNightsOf => range(before, 15),
        Place::LeastRestsOf => range(0, 31),
        Place::MostRestsOf => range(before, 31),
        Place::Mark => range(0, 6),
        Place::Members => range(1, all(m)),
        Place::NightNeed => range(0, 48),
        Place::DayNeed => range(0, 48),
        Place::NightLow => range(0, 48),
        Place::NightHigh => range(before, 48),
        Place::DayLow => range(0, 48),
        Place::DayHigh => range(before, 48),
        Place::PairCount => range(0, most_pairs(n)),
        Place::PairDay => pair_day(before, n),
        Place::End => None,
    }
}

// Another place, all else as it is.
fn moved(c: Cursor, place: Place) -> Cursor
    ensures { result ≡ moved place c }
{
    Cursor { place, ..c }
}

// Another place with new sizes.
fn sized(c: Cursor, head: Head, place: Place) -> Cursor
    ensures { result ≡ sized head place c }
{
    Cursor { place, head, ..c }
}

// Of k turns the next one, with how many are left after it; with none left, `rest`.
#[tactic(auto, using(crate::proofs::PlaceLaws::turn_again, crate::proofs::PlaceLaws::turn_over))]
fn turn<F: FnOnce(u64) -> Cursor>(k: u64, next: F, rest: Cursor) -> Cursor
    requires { F.IsAlwaysCallable next }
    ensures { (at : ℕ → Cursor) → ((j : ℕ) (c : Cursor) → j < k → F.post next j c → c ≡ at j) → result ≡ turn k at rest }
{
    if k > 0 { next(k - 1) } else { rest }
}

// Where k numbers or pairs from `place` on are left; with none left, at `rest`.
fn at_inner(c: Cursor, place: Place, k: u64, rest: Cursor) -> Cursor
    ensures { result ≡ turn k (inner_left place c) rest }
{
    turn(k, |inner| Cursor { place, inner, ..c }, rest)
}

// Where k rows from `place` on are left; with none left, at `rest`. Beside `at_inner`, since it is another field that counts.
fn at_outer(c: Cursor, place: Place, k: u64, rest: Cursor) -> Cursor
    ensures { result ≡ turn k (outer_left place c) rest }
{
    turn(k, |outer| Cursor { place, outer, ..c }, rest)
}

// Where k pairs are left, the next one's first day above `before`.
fn at_pairs(mut c: Cursor, k: u64, before: u64) -> Cursor
    ensures { tree result ≡ Layout.pairs c.head k before }
{
    c.before = before;
    at_inner(c, Place::PairDay, k, moved(c, Place::End))
}

// After the days: what edition two adds.
#[tactic(auto, unfolding(crate::specs::CodePlace::tree))]
fn at_two(c: Cursor) -> Cursor
    ensures { tree result ≡ Layout.two c.head }
{
    if c.head.edition < 2 {
        return moved(c, Place::End);
    }
    moved(c, Place::PairCount)
}

// Where k days are left. Days, groups and nurses have a function each, as the grammar has a name for each.
#[tactic(auto, using(crate::proofs::PlaceLaws::days_left))]
fn at_days(c: Cursor, k: u64) -> Cursor
    ensures { tree result ≡ Layout.days c.head k }
{
    at_outer(c, Place::NightNeed, k, at_two(c))
}

// Where k groups are left.
#[tactic(auto, using(crate::proofs::PlaceLaws::groups_left))]
fn at_groups(c: Cursor, k: u64) -> Cursor
    ensures { tree result ≡ Layout.groups c.head k }
{
    at_outer(c, Place::Members, k, at_days(c, c.head.n))
}

// Where k nurses are left.
#[tactic(auto, using(crate::proofs::PlaceLaws::nurses_left))]
fn at_nurses(c: Cursor, k: u64) -> Cursor
    ensures { tree result ≡ Layout.nurses c.head k }
{
    at_outer(c, Place::FirstDuty, k, at_groups(c, c.head.r))
}

// After the first number: a later edition's number where it is 0, else it is m of edition one.
#[tactic(auto, unfolding(crate::specs::CodePlace::tree))]
fn at_first(c: Cursor, v: u64) -> Cursor
    ensures { tree result ≡ Layout.first v }
{
    if v == 0 {
        return moved(c, Place::Edition);
    }
    sized(
        c,
        Head {
            m: v,
            n: 0,
            r: 0,
            edition: 1,
        },
        Place::Days,
    )
}

// The place after the number v. Inlined: as a call it copies two cursors, and a ward is read in twice the time.
#[tactic(auto, unfolding(crate::specs::CodePlace::tree, crate::specs::Layout::ward))]
#[inline(always)]
pub fn step(mut c: Cursor, v: u64) -> Cursor
    ensures { tree result ≡ after (tree c) v }
{
    let place = c.place;
    let inner = c.inner;
    let outer = c.outer;
    let h = c.head;
    c.before = v;
    match place {
        Place::First => at_first(c, v),
        Place::Edition => sized(c, Head { edition: v, ..h }, Place::Nurses),
        Place::Nurses => sized(c, Head { m: v, ..h }, Place::Days),
        Place::Days => sized(c, Head { n: v, ..h }, Place::Groups),
        Place::Groups => sized(c, Head { r: v, ..h }, Place::MostNights),
        Place::MostNights => moved(c, Place::LongestRun),
        Place::LongestRun => at_inner(c, Place::Gap, 3, moved(c, Place::Tabu)),
        Place::Gap => at_inner(c, Place::Gap, inner, moved(c, Place::Tabu)),
        Place::Tabu => moved(c, Place::LongestDays),
        Place::LongestDays => at_inner(c, Place::Weight, 6, at_nurses(c, h.m)),
        Place::Weight => at_inner(c, Place::Weight, inner, at_nurses(c, h.m)),
        Place::FirstDuty => at_inner(c, Place::NextDuty, 6, moved(c, Place::LeastNightsOf)),
        Place::NextDuty => at_inner(c, Place::NextDuty, inner, moved(c, Place::LeastNightsOf)),
        Place::LeastNightsOf => moved(c, Place::MostNightsOf),
        Place::MostNightsOf => moved(c, Place::LeastRestsOf),
        Place::LeastRestsOf => moved(c, Place::MostRestsOf),
        Place::MostRestsOf => at_inner(c, Place::Mark, h.n, at_nurses(c, outer)),
        Place::Mark => at_inner(c, Place::Mark, inner, at_nurses(c, outer)),
        Place::Members => at_groups(c, outer),
        Place::NightNeed => moved(c, Place::DayNeed),
        Place::DayNeed => at_inner(c, Place::NightLow, h.r, at_days(c, outer)),
        Place::NightLow => moved(c, Place::NightHigh),
        Place::NightHigh => moved(c, Place::DayLow),
        Place::DayLow => moved(c, Place::DayHigh),
        Place::DayHigh => at_inner(c, Place::NightLow, inner, at_days(c, outer)),
        Place::PairCount => at_pairs(c, v, 0),
        Place::PairDay => at_pairs(c, inner, v),
        Place::End => c,
    }
}

// The layout's first number.
#[tactic(auto, unfolding(crate::specs::CodePlace::tree))]
pub fn start() -> Cursor
    ensures { tree result ≡ Layout.ward }
{
    Cursor {
        place: Place::First,
        outer: 0,
        inner: 0,
        before: 0,
        head: Head {
            m: 0,
            n: 0,
            r: 0,
            edition: 0,
        },
    }
}
