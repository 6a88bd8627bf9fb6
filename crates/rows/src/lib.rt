// A nurse's row, day by day: its state, what a mark allows, availability, and the duty.
#![tactic(auto)]

pub mod pairs;

ghost use Rattle.std.specs.Prelude.{◌≡◌, ℕ, suc, ◌≤◌, ◌<◌, get_or, length};
ghost use Rattle.fields.specs.Sizes.{day_places};
ghost use Rattle.rows.specs.declared.State.TheVariants.{Open};
ghost use Rattle.rows.specs.States.{code};
ghost use Rattle.rows.specs.Rows.{allow_table, allows, state_after, day_zero, row_state, available, duty_of};

use fields::nurse;
use fields::sizes::DAYS;
use numbers::Set;

// The state of a day: open (O), the night's first day (N), its second day (n), owed rest (R).
#[derive(Clone, Copy, Debug, PartialEq, Eq)]
pub enum State {
    Open = 0,
    Night = 1,
    Second = 2,
    Rest = 3,
}

// Marks and duties are the file's numbers, here and in every crate above, as fields/src/nurse.rt says. So are the duties that the code works out: a
// row has them beside the seven that are read, and is judged by functions that take any row.

// What each mark allows, by the day's state: a constant table of tables, as document 01 has it. It is handed to whatever judges by it, and has
// numbers and no bools, since a ward may bring a table of its own, with 0, 1 and 2 (document 02, job 7).
const ALLOWS: [[u8; 4]; 7] = [
    [1, 1, 1, 1],
    [1, 0, 0, 1],
    [1, 0, 0, 0],
    [0, 1, 0, 0],
    [1, 0, 0, 0],
    [1, 0, 1, 1],
    [1, 1, 1, 1],
];

// Document 01's table.
pub fn allow_table() -> [[u8; 4]; 7]
    ensures { result ≡ allow_table }
{
    ALLOWS
}

// By a table of that form.
pub fn mark_allows(table: &[[u8; 4]; 7], mark: usize, state: State) -> bool
    requires { mark < 7 }
    ensures { result ≡ allows table.now mark (code state) }
{
    table[mark][state as usize] == 1
}

// The state of a day after that of the day before.
fn state_after(before: State, started: bool) -> State
    ensures { code result ≡ state_after (code before) started }
{
    match before {
        _ if started => State::Night,
        State::Night => State::Second,
        State::Second => State::Rest,
        _ => State::Open,
    }
}

// The state of day 0, by its duty.
fn day_zero(duty: u64) -> State
    ensures { code result ≡ day_zero duty }
{
    match duty {
        2 => State::Night,
        3 => State::Second,
        _ => State::Open,
    }
}

// The state of every day of a month under night pattern p, and open after them, by her numbers. An array of the longest month, here and for a row's
// letters and duties: no heap.
#[tactic(auto, using(crate::proofs::RowLaws::row_zero))]
pub fn states(numbers: &[u64], days: usize, p: u32) -> [State; DAYS]
    requires { (days ≤ day_places) × (7 ≤ length numbers.now) }
    ensures { (d : ℕ) → d < days → code (get_or result d Open) ≡ row_state numbers.now p (suc d) }
{
    let mut states = [State::Open; DAYS];
    let mut state = day_zero(nurse::last_duty(numbers));
    for d in 0..days {
        state = state_after(state, p.has(d));
        states[d] = state;
    }
    states
}

// Open days marked 0, 2 or 5, by the state's number, which may be any: none but 0 is open.
pub fn is_available(mark: u64, state: usize) -> bool
    ensures { result ≡ available mark state }
{
    state == 0 && matches!(mark, 0 | 2 | 5)
}

// The duty of a day: 0 rest, 1 day, 2 the night's first day, 3 its second day, 4 other. By the state's number; one of no state is taken as open.
pub fn duty_of(mark: u64, state: usize, worked: bool) -> u64
    ensures is { result ≡ duty_of mark state worked }
    ensures small { result < 5 }
{
    match state {
        1 => 2,
        2 => 3,
        3 => 0,
        _ if worked => 1,
        _ if mark == 4 => 4,
        _ => 0,
    }
}

impl State {
    // Whether she is available in this state under a mark.
    pub fn is_available(self, mark: u64) -> bool
        ensures { result ≡ available mark (code self) }
    {
        is_available(mark, self as usize)
    }

    // The duty of a day in this state.
    pub fn duty(self, mark: u64, worked: bool) -> u64
        ensures is { result ≡ duty_of mark (code self) worked }
        ensures small { result < 5 }
    {
        duty_of(mark, self as usize, worked)
    }
}
