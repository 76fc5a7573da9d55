//! Code of docs/CALLERS.md and of tinyjson/CALLING.md.

mod access;
mod loops;
