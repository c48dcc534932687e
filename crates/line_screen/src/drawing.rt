//! Drawings, written straight to a sink: each function writes its bytes and stores nothing.

pub(crate) mod appended;
pub(crate) mod over;
pub(crate) mod painted;
pub(crate) mod rest;
pub(crate) mod sequences;
pub(crate) mod shifted;
pub(crate) mod styles;
pub(crate) mod text;
pub(crate) mod whole;
