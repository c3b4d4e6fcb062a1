//! The bits of a tuple header's two words, named as in access/htup_details.h without their prefix.

// Bits of t_infomask.
pub(crate) const HASNULL: u16 = 0x0001;

pub(crate) const HASOID_OLD: u16 = 0x0008;

pub(crate) const XMAX_KEYSHR_LOCK: u16 = 0x0010;

pub(crate) const XMAX_EXCL_LOCK: u16 = 0x0040;

pub(crate) const XMAX_LOCK_ONLY: u16 = 0x0080;

pub(crate) const XMIN_COMMITTED: u16 = 0x0100;

pub(crate) const XMIN_INVALID: u16 = 0x0200;

pub(crate) const XMAX_COMMITTED: u16 = 0x0400;

pub(crate) const XMAX_INVALID: u16 = 0x0800;

pub(crate) const XMAX_IS_MULTI: u16 = 0x1000;

pub(crate) const UPDATED: u16 = 0x2000;

pub(crate) const MOVED_OFF: u16 = 0x4000;

pub(crate) const MOVED_IN: u16 = 0x8000;

// Which of these bits say how an old server, which kept no LOCK_ONLY, locked a tuple.
pub(crate) const LOCKS: u16 = XMAX_IS_MULTI | XMAX_EXCL_LOCK | XMAX_KEYSHR_LOCK;

// Bits of t_infomask2.
pub(crate) const NATTS: u16 = 0x07FF;

pub(crate) const HOT_UPDATED: u16 = 0x4000;

/// A bit of `t_infomask2`: no index entry names the tuple (HEAP_ONLY_TUPLE).
pub const HEAP_ONLY: u16 = 0x8000;
