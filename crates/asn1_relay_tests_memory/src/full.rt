//! Tests that allocate all memory first: of calls that promise to take none, and of calls that then run out of memory,
//! or have little. They fill the address space of the process, which `malloc` of Linux permits. Where it does not, as
//! under a sanitizer, no request is refused, and the tests fail.
mod calls;
mod codecs;
mod memory;
mod runs;
mod starving;
mod values;
mod waiting;
