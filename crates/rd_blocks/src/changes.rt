//! The law of changes: those of edits, joined, lead from a state of a buffer to each later one.
ghost use Rattle.std.specs.Prelude.{◌≡◌, ◌≤◌, ℕ};
ghost use Rattle.rd_objects.specs.Sound.{IsClosed, Extends};
ghost use Rattle.rd_objects.specs.Things.{ObjectLists};
ghost use Rattle.rd_props.specs.Agreement.{IsEdited};
ghost use Rattle.rd_props.specs.Buffers.{BufferValue};
ghost use Rattle.rd_props.specs.Edits.{HasOverlays};
ghost use Rattle.rd_props.specs.Made.{AreMade};
ghost use Rattle.rd_base.specs.Settings.{without_flags};
ghost use Rattle.rd_reuse.specs.Changes.{edit, join, none};
ghost use Rattle.rd_reuse.specs.declared.change.Change.{Change};
ghost use Rattle.rd_blocks.specs.Leads.{LeadsTo};

use rd_props::{changes_join, new_objects_leave_all, settings_leave_all};

/// The change of an edit leads from the state before it to that behind it, and no change leads to a state with more objects or with other
/// flags. A change that leads to a state, joined with one that leads on from there, leads on too. The call does nothing.
pub fn changes_lead_on()
    ensures edited { (old new : BufferValue) (objects : ObjectLists) (from removed added : ℕ)
        → old.text.begin ≤ from → IsClosed objects → AreMade old objects → without_flags new.settings ≡ without_flags old.settings
        → IsEdited old objects new objects from removed added → LeadsTo old objects new objects (edit from removed added) }
    ensures grown { (s : BufferValue) (made objects : ObjectLists) → IsClosed made → AreMade s made → Extends made objects → LeadsTo s made s objects none }
    ensures flagged { (old new : BufferValue) (objects : ObjectLists)
        → IsClosed objects → AreMade old objects → without_flags new.settings ≡ without_flags old.settings → HasOverlays old new old.overlays → LeadsTo old objects new objects none }
    ensures combined { (first second third : BufferValue) (a b c : ObjectLists) (change later : Change)
        → LeadsTo first a second b change → LeadsTo second b third c later → LeadsTo first a third c (join change later) }
{
    changes_join();
    new_objects_leave_all();
    settings_leave_all();
}
