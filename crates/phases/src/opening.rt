// Question 8: whether the day search opens on a choice of nights. The ward and the nights are two parameters, as in dayadvance/src/lib.rt.
ghost use Rattle.std.specs.Prelude.{◌≡◌};
ghost use Rattle.std.proofs.Math.Option.{some};
ghost use Rattle.numbers.specs.Range.{up_from, all};
ghost use Rattle.refusals.specs.Refusals.{refusal_in, unless};
ghost use Rattle.refusals.specs.Questions as question;
ghost use Rattle.fields.specs.Fields.{nurses};
ghost use Rattle.nights.specs.Own.{own_pattern};
ghost use Rattle.penalty.specs.Penalty.{night_penalty};
ghost use Rattle.phases.specs.Phases.{nights_open, night_of};

use fields::Body;
use fields::sizes::NURSES;
use history::Search;
use refusals::Refusal;
use refusals::question::Question;
use search::Record;

// Whether each night pattern is hers, with its pair.
fn nights_hers(w: &Body, nights: &[u64; NURSES]) -> bool
    ensures { result ≡ all (λ i. own_pattern w.now.numbers.now i (night_of nights.now i)) (up_from 0 (nurses w.now.numbers.now)) }
{
    (0..w.nurses()).all(|i| nights::is_own(&w.nurse_at(i), nights[i]))
}

// The night penalty, everyone placed.
fn night_penalty(w: &Body, nights: &[u64; NURSES]) -> u64
    ensures { result ≡ night_penalty w.now.numbers.now (λ i. some (night_of nights.now i)) }
{
    let rec = Record {
        patterns: *nights,
        placed: [true; NURSES],
        ..Record::fresh()
    };
    search::slots::penalty_of(w, rec, Search::Nights)
}

fn nights_open(w: &Body, nights: &[u64; NURSES]) -> bool
    ensures { result ≡ nights_open w.now.numbers.now (night_of nights.now) }
{
    nights_hers(w, nights) && night_penalty(w, nights) == 0
}

// Question 8.
pub fn nights_asked(w: &Body, nights: &[u64; NURSES]) -> Result<(), Refusal>
    ensures { refusal_in result ≡ unless (nights_open w.now.numbers.now (night_of nights.now)) question.nights 0 }
{
    Question::Nights.unless(nights_open(w, nights), 0)
}
