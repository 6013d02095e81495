//! The page, in five parts: what stands where, and its script. It asks for everything else. `tools/page_hashes.py` has to
//! run after each change of its style or script.

pub(crate) mod commands;
pub(crate) mod head;
pub(crate) mod live;
pub(crate) mod passes;
pub(crate) mod tables;
