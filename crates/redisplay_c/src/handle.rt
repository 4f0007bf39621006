//! The handle: a box as its pointer, of which C is told no more than that it is one word, and a flag that says whether there is one.
ghost use Rattle.std.specs.Prelude.{◌≡◌, IsSome, Some, None, Option, option_map, is_some};
ghost use Rattle.std.specs.Box.Ownership.{box_owns};
ghost use Rattle.redisplay_c.specs.Handles.{held_at};
ghost use Rattle.rd_embed.specs.contracts.embedded.Embedded.{the_row as held_row};
ghost use Rattle.std.specs.Coded.{coded_option};
ghost use Rattle.rd_embed.specs.declared.embedded.Embedded.{Embedded};
ghost use Rattle.std.specs.declared.alloc.Global.{Global};

use rd_embed::Embedded;
use std::alloc::{Allocator, Global};
use std::marker::Model;
use std::mem::replace;
use std::ptr::null_mut;

/// A box as its pointer.
struct Loose<T, A: Allocator> {
    at: *mut T,
    alloc: A,
    ghost value: { T },
}

impl<T, A: Allocator> Model for Loose<T, A> {
    ghost also_owns = { λ l. box_owns (A.dealloc_token l.alloc) T.row l.at l.value };
}

impl<T: Drop, A: Allocator> Loose<T, A> {
    fn of(value: Box<T, A>) -> Loose<T, A>
        ensures { result.value ≡ value.value }
    {
        let (at, alloc) = Box::into_raw_with_allocator(value);
        Loose { at, alloc }
    }

    fn into_box(self) -> Box<T, A>
        ensures { result.value ≡ self.value }
    {
        let Loose { at, alloc } = self;
        unsafe { Box::from_raw(alloc, at) }
    }
}

/// One word, which is a box's pointer or none.
#[repr(C)]
#[derive(Drop)]
pub struct Handle {
    at: *mut u8,
    pub(crate) ghost value: { Option Embedded } by { coded_option held_row.coded },
    ghost of: { Global },
}

impl Model for Handle {
    ghost also_owns = { λ h. held_at h.of h.at h.value };
}

fn closed(_alloc: Global) -> Handle
    ensures { result.value ≡ None }
{
    Handle { at: null_mut() }
}

fn pack(l: Loose<Embedded, Global>) -> Handle
    ensures { result.value ≡ Some l.value }
{
    let Loose { at, alloc: _ } = l;
    Handle { at: at as *mut u8 }
}

fn unpack(alloc: Global, h: Handle) -> Loose<Embedded, Global>
    requires { IsSome h.value }
    ensures { h.value ≡ Some result.value }
{
    let Handle { at } = h;
    Loose {
        at: at as *mut Embedded,
        alloc,
    }
}

/// What C holds: its first byte says whether the other word is a box's pointer.
#[repr(C)]
#[derive(Drop)]
pub struct Slot {
    is_open: bool,
    pub(crate) handle: Handle,
    pub(crate) ghost told: { is_open ≡ is_some handle.value },
}

impl Slot {
    /// Whether there is a session.
    pub fn is_open(&self) -> bool
        ensures { result ≡ is_some self.now.handle.value }
    {
        self.is_open
    }

    /// Takes the session out, if there is one.
    pub fn take(&mut self, alloc: Global) -> Option<Box<Embedded>>
        ensures taken { option_map (λ held. held.value) result ≡ self.old.handle.value }
        ensures closed { self.new.handle.value ≡ None }
    {
        if self.is_open {
            let Slot { is_open: _, handle } = replace(
                self,
                Slot {
                    is_open: false,
                    handle: closed(alloc),
                },
            );
            Some(unpack(alloc, handle).into_box())
        } else {
            None
        }
    }

    /// Puts a session in.
    pub fn put(&mut self, held: Box<Embedded>)
        ensures { self.new.handle.value ≡ Some held.value }
    {
        *self = Slot {
            is_open: true,
            handle: pack(Loose::of(held)),
        };
    }
}
