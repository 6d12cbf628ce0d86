//! The pointers of a process and the bytes of one command at its initiator (ANSI X3.131-1994, 6.4).
//!
//! [`Pointers`] keeps the active and the saved pointers to the command, the data and the status of one process:
//! a byte goes to or comes from the place of the active pointer of its [`Area`], SAVE DATA POINTER saves the
//! active data pointer (6.6.20), and RESTORE POINTERS (6.6.19) and every connection set the active pointers to
//! the saved ones. [`HostBuffer`] is the area of the initiator's memory that one of them points into; it serves a
//! caller with an initiator of his own, since an initiator of a run keeps its areas itself, and here only tests call
//! it. What a process carried, by its pointers, is said by `story_model` (`specs/CarriedBytes.antt`);
//! `specs/Pointers.antt` and `specs/HostBuffer.antt` say where it stands here.
//!
//! Public contract: where the pointers are those of what a process carried, they are so after every message,
//! every byte and every new connection; and a buffer that holds what it carried holds it after a byte is put at
//! the active pointer.
#![tactic(auto)]

mod buffer;
mod laws;
mod pointers;

pub use buffer::HostBuffer;
pub use laws::pointers_keep_buffers;
pub use pointers::{Area, Place, Pointers};
