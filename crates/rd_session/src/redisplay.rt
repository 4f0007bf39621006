//! Redisplay: the windows are laid out, the target is painted and the update is prepared; then it is sent, and what was laid out is kept.
ghost use Rattle.std.specs.Prelude.{◌≡◌, ◌≢◌, ◌≤◌, ◌+◌, None, IfOk};
ghost use Rattle.rd_io.specs.Devices.{Rose};
ghost use Rattle.rd_layout.specs.Redisplays.{Redisplayed, allowed, bands_of, outcome_of};
ghost use Rattle.rd_layout.specs.Screens.{laid_out};
ghost use Rattle.rd_layout.specs.Since.{KnownScreenFits};
ghost use Rattle.rd_layout.specs.declared.outcome.Outcome.TheVariants.{NoMemory, WriteFault as Fault};
ghost use Rattle.rd_lineshift.specs.Plans.{shifted_planned};
ghost use Rattle.rd_session.specs.Screens.{with_screen};
ghost use Rattle.rd_term.specs.Pictures.{IsOfSize};
ghost use Rattle.rd_update.specs.Laws.{IsSound};
ghost use Rattle.rd_update.specs.Plans.{shown};
ghost use Rattle.rd_views.specs.Layings.{IsDesired};

use crate::bands::bands_of;
use crate::session::Session;
use rd_base::{Memory, Steps};
use rd_io::Sink;
use rd_layout::{Outcome, redisplays_keep_states, redisplays_lead_on, targets_are_sound};
use rd_lineshift::{Shifted, shifted_plan};
use rd_paint::paint_frame;
use rd_state::State;
use rd_term::Screen;
use rd_update::Sent;
use rd_views::{Desired, Views};
use std::alloc::Global;
use std::sync::ledger::Ledger;

/// What a redisplay makes before it sends a byte: what laying out the windows gave, the target, and the update that leads to it.
#[derive(Drop)]
struct Prepared {
    desired: Desired,
    target: Screen,
    update: Shifted,
}

impl Session {
    /// Lays the windows out, brings the screen to what they show, and settles their starts and points. Where `stop` is given at most so
    /// many of the rows that differ are sent: Stopped says that more differ, and Shown that these were all; both have the number of rows
    /// that were sent. NoMemory may be answered at any time, and then no byte was sent: all memory is taken before the first byte.
    /// WriteFault comes exactly where the sink's count of faults rose: a front of the bytes was sent, not all. After either the frame is garbaged, and
    /// all else is as it was. A window whose last layout stands and whose start suits its point costs nothing; another one costs at most
    /// three times what the rows of the blocks near it take that keep none: their elements, and those of a prefix once for each row.
    pub fn redisplay<K: Sink, L: Ledger>(
        &mut self,
        sink: &mut K,
        stop: Option<u32>,
        steps: &mut Steps<L>,
    ) -> Outcome
        ensures redisplayed { Redisplayed result stop self.old self.new (K.written sink.old) (K.written sink.new) }
        ensures never_falls { K.faults sink.old ≤ K.faults sink.new }
        ensures kept { result ≢ Fault → K.faults sink.new ≡ K.faults sink.old }
        ensures failed { result ≡ Fault → Rose (K.faults sink.old) (K.faults sink.new) }
        ensures steps { steps.new ≤ steps.old + allowed self.old }
    {
        redisplays_lead_on();
        self.views.views_are_known();
        match prepare(self.alloc, &self.views, self.screen.as_ref(), steps) {
            Ok(prepared) => send(&mut self.views, &mut self.screen, prepared, sink, stop),
            Err(Memory) => self.give_up(),
        }
    }

    /// Garbages the frame for want of memory.
    fn give_up(&mut self) -> Outcome
        ensures garbaged { self.new ≡ record self.old { current = None } }
        ensures told { result ≡ NoMemory }
    {
        self.screen = None;
        Outcome::NoMemory
    }
}

/// Lays the windows out, paints the target and prepares the update that leads to it from the current screen, without a change.
fn prepare<L: Ledger>(
    alloc: Global,
    views: &Views,
    current: Option<&Screen>,
    steps: &mut Steps<L>,
) -> Result<Prepared, Memory>
    requires current { KnownScreenFits (shown current) views.now.state }
    ensures desired { IfOk result (λ prepared. IsDesired views.now prepared.desired) }
    ensures target { IfOk result (λ prepared. prepared.target ≡ (laid_out views.now.files views.now.state).picture) }
    ensures update { IfOk result (λ prepared. prepared.update ≡ shifted_planned (shown current.entry) (laid_out views.now.files views.now.state).picture (bands_of views.now.state)) }
    ensures steps { steps.new ≤ steps.old + allowed views.now }
{
    targets_are_sound();
    views.views_are_known();
    let desired = views.lay_out(steps)?;
    let target = paint(alloc, views, &desired)?;
    let update = plan(alloc, views.state(), current, &target)?;
    Ok(Prepared {
        desired,
        target,
        update,
    })
}

/// Paints what the windows show as they were laid out.
fn paint(alloc: Global, views: &Views, desired: &Desired) -> Result<Screen, Memory>
    requires { IsDesired views.now desired.now }
    ensures { IfOk result (λ screen. screen ≡ (laid_out views.now.files views.now.state).picture) }
{
    let windows = views.shown(desired)?;
    paint_frame(alloc, views.classes(), views.state(), windows.as_slice())
}

/// Prepares the update from the current screen, or an unknown one, to the target.
fn plan(
    alloc: Global,
    state: &State,
    current: Option<&Screen>,
    target: &Screen,
) -> Result<Shifted, Memory>
    requires current { KnownScreenFits (shown current) state.now }
    requires size { IsOfSize state.now.width state.now.height target.now }
    requires sound { IsSound target.now }
    ensures { IfOk result (λ update. update ≡ shifted_planned (shown current.entry) target.now (bands_of state.now)) }
{
    redisplays_keep_states();
    state.states_are_valid();
    let bands = bands_of(alloc, state)?;
    shifted_plan(alloc, current, target, bands.as_slice())
}

/// Sends a prepared update. Where it was sent as far as it goes, the screen is what the terminal then shows, and the windows keep what
/// laying them out gave. It takes no memory.
fn send<K: Sink>(
    views: &mut Views,
    screen: &mut Option<Screen>,
    prepared: Prepared,
    sink: &mut K,
    stop: Option<u32>,
) -> Outcome
    requires current { KnownScreenFits screen.old views.old.state }
    requires desired { IsDesired views.old prepared.desired }
    requires target { prepared.target ≡ (laid_out views.old.files views.old.state).picture }
    requires update { prepared.update ≡ shifted_planned screen.old (laid_out views.old.files views.old.state).picture (bands_of views.old.state) }
    ensures redisplayed { Redisplayed result stop (with_screen views.old screen.old) (with_screen views.new screen.new) (K.written sink.old) (K.written sink.new) }
    ensures never_falls { K.faults sink.old ≤ K.faults sink.new }
    ensures kept { result ≢ Fault → K.faults sink.new ≡ K.faults sink.old }
    ensures failed { result ≡ Fault → Rose (K.faults sink.old) (K.faults sink.new) }
{
    redisplays_keep_states();
    targets_are_sound();
    views.views_are_known();
    let Prepared {
        desired,
        target,
        update,
    } = prepared;
    let current = screen.take();
    match update.send(sink, stop) {
        Err(_fault) => Outcome::WriteFault,
        Ok(sent) => {
            *screen = Some(update.after(current, target, sent));
            views.adopt(desired);
            outcome_of(sent)
        }
    }
}

/// How a redisplay ended whose update was sent as far as it goes.
fn outcome_of(sent: Sent) -> Outcome
    ensures { result ≡ outcome_of sent.done sent.rows }
{
    if sent.done {
        Outcome::Shown(sent.rows)
    } else {
        Outcome::Stopped(sent.rows)
    }
}
