// What is drawn by the numbers of a generator.

ghost use Rattle.std.specs.Prelude.{◌≡◌, ◌%◌, ◌≤◌, ℕ, false};
ghost use Rattle.sv_types.specs.Schedule.{next_random, drawn_hart, event_among, drawn_event, burst_length};
ghost use Rattle.script.specs.HartCounts.{IsHartCount};
ghost use Rattle.script.specs.TurnNumbers.{is_turn, DrawTurns};

use sv_types::Event;

// The numbers of the generator, which is the linear congruential one of D. E. Knuth's MMIX.
const GENERATOR_FACTOR: u64 = 6_364_136_223_846_793_005;

const GENERATOR_ADDEND: u64 = 1_442_695_040_888_963_407;

#[inline(always)]
pub(crate) fn random_after(number: u64) -> u64
    ensures { result ≡ next_random number }
{
    number
        .wrapping_mul(GENERATOR_FACTOR)
        .wrapping_add(GENERATOR_ADDEND)
}

// A number's rest by that of the harts. By a power of two it takes no division, which one in each turn would be felt.
#[inline(always)]
fn hart_among(harts: u8, number: u64) -> u8
    requires harts { IsHartCount harts }
    ensures { result ≡ number % harts }
{
    let last = harts - 1;
    if harts & last == 0 {
        (number & u64::from(last)) as u8
    } else {
        (number % u64::from(harts)) as u8
    }
}

// Where the four bits of a number stand that tell the kind of event: a turn below the first of beats, and ticks from the first
// of these on.
const KIND_SHIFT: u32 = 60;

const FIRST_BEAT: u64 = 12;

const FIRST_TICKS: u64 = 15;

// Where the bits stand that tell a hart.
const HART_SHIFT: u32 = 32;

// The ticks of one event.
const DRAWN_TICKS: u64 = 16;

// Where the bits stand that tell a burst's length, and how many lengths there are.
const LENGTH_SHIFT: u32 = 48;

const BURST_LENGTHS: u64 = 13;

/// The hart that a number draws.
#[inline(always)]
pub(crate) fn drawn_hart(harts: u8, number: u64) -> u8
    requires harts { IsHartCount harts }
    ensures { result ≡ drawn_hart harts number }
{
    hart_among(harts, number >> HART_SHIFT)
}

// A number draws a turn.
#[inline(always)]
fn is_turn(number: u64) -> bool
    ensures { result ≡ is_turn number }
{
    number >> KIND_SHIFT < FIRST_BEAT
}

// The event that a number draws which draws no turn: a beat or ticks.
#[inline(always)]
fn event_of_no_hart(number: u64) -> Event
    requires { is_turn number ≡ false }
    ensures { (hart : ℕ) → result ≡ event_among hart number }
{
    if number >> KIND_SHIFT < FIRST_TICKS {
        Event::Beat
    } else {
        Event::Tick(DRAWN_TICKS)
    }
}

/// The event that a number draws: a turn of a hart, a beat or ticks.
#[inline(always)]
pub(crate) fn event_among(hart: u8, number: u64) -> Event
    ensures { result ≡ event_among hart number }
{
    if is_turn(number) {
        Event::Turn(hart)
    } else {
        event_of_no_hart(number)
    }
}

/// The event that a number draws, its hart too, which is drawn for turns alone.
#[inline(always)]
pub(crate) fn drawn_event(harts: u8, number: u64) -> Event
    requires harts { IsHartCount harts }
    ensures { result ≡ drawn_event harts number }
{
    if is_turn(number) {
        Event::Turn(drawn_hart(harts, number))
    } else {
        event_of_no_hart(number)
    }
}

/// How many events the burst has that a number draws.
#[tactic(auto, using(crate::proofs::BurstEvents::shifted))]
pub(crate) fn burst_length(number: u64) -> u64
    ensures { result ≡ burst_length number }
{
    1 << ((number >> LENGTH_SHIFT) % BURST_LENGTHS)
}

/// Turns that are drawn in a row: how many, and the number after which the next event is drawn.
#[derive(Drop)]
pub(crate) struct TurnsAhead {
    pub count: u64,
    pub number: u64,
}

/// The turns that are drawn after a number as long as the next event is one, at most so many.
#[inline(always)]
pub(crate) fn turns_ahead(number: u64, most: u64) -> TurnsAhead
    ensures turns { DrawTurns result.count number result.number }
    ensures most { result.count ≤ most }
{
    let mut count = 0;
    let mut last = number;
    'turns: while count < most {
        let ahead = random_after(last);
        if !is_turn(ahead) {
            return TurnsAhead {
                count,
                number: last,
            };
        }
        last = ahead;
        count += 1;
    }
    TurnsAhead {
        count,
        number: last,
    }
}
