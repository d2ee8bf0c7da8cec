// One call, answered by the cells.
ghost use Rattle.miss_handler.specs.declared.state.CallState.TheVariants.{Cached, Mega};
ghost use Rattle.miss_handler.specs.States.{Explains};
ghost use Rattle.cell_rule.specs.Steps.{SameSeat, OthersSeen};
ghost use Rattle.shared_cells.specs.Callings.{IsCallOf, CanCall};
ghost use Rattle.shared_cells.specs.Runs.{Running, Looked, Level, Moving};
ghost use Rattle.shared_cells.specs.Dispatches.{Answers, Turned};
ghost use Rattle.std.specs.Prelude.{◌≡◌, ◌≢◌, ◌+◌, ◌*◌, ◌≤◌, false};

use crate::answer::{Answer, Ask, Point, Sought};
use crate::between::Between;
use crate::row::{add_first, seek, take};
use crate::states::{covers_itself, is_cached, is_mega, next_info, resolve};
use atomic_table::Seat;
use call_cell::How;
use cell_rule::{
    Call, CellWords, Info, View, advance_data, finish_target, load_data, load_target, open_call,
};
use ds_base::Steps;
use method_lookup::Linked;
use miss_handler::{CallState, Check};
use program::{ClassId, MethodId, SiteId, Target};
use std::sync::ledger::Ledger;

/// Goes on after a transition that this call made: the new state is covered, or the class is added to the row.
fn settle<N: Call, L: Ledger>(
    words: &CellWords,
    seat: &mut Seat<(), View>,
    linked: &Linked,
    site: SiteId,
    class: ClassId,
    at: Point,
    info: Info,
    next: Info,
    steps: &mut Steps<L>,
) -> Result<Answer, Point>
    requires named { IsCallOf N.about N.site N.class words.now linked.now site.0 class.0 }
    requires reach { CanCall N.about N.site N.class words.now seat.old }
    requires moving { Moving N.about N.site N.class at.head.0 at.newest info next N.start seat.old.me.0 }
    requires not_mega { next.state ≢ Mega }
    ensures same { SameSeat seat.old seat.new }
    ensures turned { Turned N.about N.site N.class at result N.start seat.new.me.0 }
    ensures cost { steps.new ≤ steps.old + 9 }
{
    let (stamp, _) = at.head;
    let target = resolve(linked, site, class);
    let answer = Answer {
        target,
        how: How::Miss,
        stamp: stamp + 1,
        asks: Ask::Nothing,
    };
    if is_cached(next.state) {
        add_first::<N, L>(words, seat, linked, site, info.state, steps);
        if take::<N, L>(words, seat, site, Check { class, target }, 0, steps) {
            return Ok(answer);
        }
        let head = load_target::<N, L>(words, seat, site, steps);
        return Err(Point {
            head,
            newest: stamp + 1,
            tried: true,
        });
    }
    Ok(answer)
}

/// Moves a site that does not explain the class.
fn moves<N: Call, B: Between, L: Ledger>(
    words: &CellWords,
    seat: &mut Seat<(), View>,
    linked: &Linked,
    site: SiteId,
    class: ClassId,
    at: Point,
    info: Info,
    between: &B,
    steps: &mut Steps<L>,
) -> Result<Answer, Point>
    requires named { IsCallOf N.about N.site N.class words.now linked.now site.0 class.0 }
    requires reach { CanCall N.about N.site N.class words.now seat.old }
    requires level { Level N.about N.site N.class at.head.0 at.head.1 at.newest info N.start seat.old.me.0 }
    requires unexplained { ¬ Explains info.state N.class }
    ensures same { SameSeat seat.old seat.new }
    ensures turned { Turned N.about N.site N.class at result N.start seat.new.me.0 }
    ensures cost { steps.new ≤ steps.old + 11 }
{
    let next = next_info(linked, site, info.state, class);
    let pair = (at.head.0, info);
    match advance_data::<N, L>(words, seat, site, pair, next, steps) {
        None => {
            between.between();
            finish_target::<N, L>(words, seat, site, at.head, next, steps);
            settle::<N, L>(words, seat, linked, site, class, at, info, next, steps)
        }
        Some((newest, _)) => {
            let head = load_target::<N, L>(words, seat, site, steps);
            Err(Point {
                head,
                newest,
                tried: true,
            })
        }
    }
}

/// Moves a site whose four checks have other classes.
fn widen<N: Call, B: Between, L: Ledger>(
    words: &CellWords,
    seat: &mut Seat<(), View>,
    linked: &Linked,
    site: SiteId,
    class: ClassId,
    at: Point,
    info: Info,
    between: &B,
    steps: &mut Steps<L>,
) -> Result<Answer, Point>
    requires named { IsCallOf N.about N.site N.class words.now linked.now site.0 class.0 }
    requires reach { CanCall N.about N.site N.class words.now seat.old }
    requires level { Level N.about N.site N.class at.head.0 at.head.1 at.newest info N.start seat.old.me.0 }
    requires cached { info.state ≡ Cached }
    requires full { OthersSeen N.site N.class 4 seat.old.me.0 }
    ensures same { SameSeat seat.old seat.new }
    ensures turned { Turned N.about N.site N.class at result N.start seat.new.me.0 }
    ensures cost { steps.new ≤ steps.old + 2 }
{
    let (stamp, _) = at.head;
    let next = Info {
        state: CallState::Mega,
        target: Target::Method(MethodId(0)),
    };
    match advance_data::<N, L>(words, seat, site, (stamp, info), next, steps) {
        None => {
            between.between();
            finish_target::<N, L>(words, seat, site, at.head, next, steps);
            Ok(Answer {
                target: resolve(linked, site, class),
                how: How::Miss,
                stamp: stamp + 1,
                asks: Ask::Add,
            })
        }
        Some((newest, _)) => {
            let head = load_target::<N, L>(words, seat, site, steps);
            Err(Point {
                head,
                newest,
                tried: true,
            })
        }
    }
}

/// Answers by the checks of a row, or adds the class to them.
fn checked<N: Call, B: Between, L: Ledger>(
    words: &CellWords,
    seat: &mut Seat<(), View>,
    linked: &Linked,
    site: SiteId,
    class: ClassId,
    at: Point,
    info: Info,
    between: &B,
    steps: &mut Steps<L>,
) -> Result<Answer, Point>
    requires named { IsCallOf N.about N.site N.class words.now linked.now site.0 class.0 }
    requires reach { CanCall N.about N.site N.class words.now seat.old }
    requires looked { Looked N.about N.site N.class at.head.0 at.head.1 at.newest at.tried N.start at.head.0 info seat.old.me.0 }
    requires cached { info.state ≡ Cached }
    ensures same { SameSeat seat.old seat.new }
    ensures turned { Turned N.about N.site N.class at result N.start seat.new.me.0 }
    ensures cost { steps.new ≤ steps.old + 10 }
{
    let (stamp, _) = at.head;
    match seek::<N, L>(words, seat, site, class, steps) {
        Sought::Stands(target) => {
            let how = if at.tried { How::Miss } else { How::Hit };
            Ok(Answer {
                target,
                how,
                stamp,
                asks: Ask::Nothing,
            })
        }
        Sought::Room(place) => {
            let target = resolve(linked, site, class);
            if take::<N, L>(words, seat, site, Check { class, target }, place, steps) {
                Ok(Answer {
                    target,
                    how: How::Miss,
                    stamp,
                    asks: Ask::Nothing,
                })
            } else {
                widen::<N, B, L>(words, seat, linked, site, class, at, info, between, steps)
            }
        }
        Sought::Full => widen::<N, B, L>(
            words, seat, linked, site, class, at, info, between, steps,
        ),
    }
}

/// Goes on from a pair with equal stamps.
fn level<N: Call, B: Between, L: Ledger>(
    words: &CellWords,
    seat: &mut Seat<(), View>,
    linked: &Linked,
    site: SiteId,
    class: ClassId,
    at: Point,
    info: Info,
    between: &B,
    steps: &mut Steps<L>,
) -> Result<Answer, Point>
    requires named { IsCallOf N.about N.site N.class words.now linked.now site.0 class.0 }
    requires reach { CanCall N.about N.site N.class words.now seat.old }
    requires looked { Looked N.about N.site N.class at.head.0 at.head.1 at.newest at.tried N.start at.head.0 info seat.old.me.0 }
    ensures same { SameSeat seat.old seat.new }
    ensures turned { Turned N.about N.site N.class at result N.start seat.new.me.0 }
    ensures cost { steps.new ≤ steps.old + 11 }
{
    let (stamp, _) = at.head;
    if covers_itself(info.state, class) {
        let how = if at.tried { How::Miss } else { How::Hit };
        let target = info.target;
        return Ok(Answer {
            target,
            how,
            stamp,
            asks: Ask::Nothing,
        });
    }
    if is_cached(info.state) {
        return checked::<N, B, L>(words, seat, linked, site, class, at, info, between, steps);
    }
    if is_mega(info.state) {
        let target = resolve(linked, site, class);
        let asks = if at.tried {
            Ask::Find(false)
        } else {
            Ask::Find(true)
        };
        return Ok(Answer {
            target,
            how: How::Miss,
            stamp,
            asks,
        });
    }
    moves::<N, B, L>(words, seat, linked, site, class, at, info, between, steps)
}

/// One turn. Ok is the answer, and Err the point from which to go on.
fn turn<N: Call, B: Between, L: Ledger>(
    words: &CellWords,
    seat: &mut Seat<(), View>,
    linked: &Linked,
    site: SiteId,
    class: ClassId,
    at: Point,
    between: &B,
    steps: &mut Steps<L>,
) -> Result<Answer, Point>
    requires named { IsCallOf N.about N.site N.class words.now linked.now site.0 class.0 }
    requires reach { CanCall N.about N.site N.class words.now seat.old }
    requires running { Running N.about N.site N.class at.head.0 at.head.1 at.newest at.tried N.start seat.old.me.0 }
    ensures same { SameSeat seat.old seat.new }
    ensures turned { Turned N.about N.site N.class at result N.start seat.new.me.0 }
    ensures cost { steps.new ≤ steps.old + 12 }
{
    let (stamp, _) = at.head;
    let tried = at.tried;
    let (newest, info) = load_data::<N, L>(words, seat, site, steps);
    if newest == stamp {
        return level::<N, B, L>(words, seat, linked, site, class, at, info, between, steps);
    }
    if newest - stamp == 1 {
        finish_target::<N, L>(words, seat, site, at.head, info, steps);
        let head = load_target::<N, L>(words, seat, site, steps);
        return Err(Point {
            head,
            newest,
            tried,
        });
    }
    let head = load_target::<N, L>(words, seat, site, steps);
    Err(Point {
        head,
        newest,
        tried,
    })
}

/// Opens a call and answers it.
pub fn run<N: Call, B: Between, L: Ledger>(
    words: &CellWords,
    seat: &mut Seat<(), View>,
    linked: &Linked,
    site: SiteId,
    class: ClassId,
    between: &B,
    steps: &mut Steps<L>,
) -> Answer
    requires named { IsCallOf N.about N.site N.class words.now linked.now site.0 class.0 }
    requires reach { CanCall N.about N.site N.class words.now seat.old }
    requires closed { seat.old.me.0.pending ≡ false }
    requires start { N.start ≡ seat.old.me.0 }
    ensures same { SameSeat seat.old seat.new }
    ensures answered { Answers N.about N.site N.class result N.start seat.new.me.0 }
    ensures cost { steps.new ≤ steps.old + (24 * N.about.classes + 61) }
{
    let head = open_call::<N, L>(words, seat, site, steps);
    let mut at = Point {
        head,
        newest: 0,
        tried: false,
    };
    'turns: loop {
        match turn::<N, B, L>(words, seat, linked, site, class, at, between, steps) {
            Ok(answer) => return answer,
            Err(to) => at = to,
        }
    }
}
