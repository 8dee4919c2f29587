//! Where a program reads from and writes to: sources and sinks, in memory and of the process; and texts.
#![tactic(auto)]

pub use calls::Calls;
pub use failed::Failed;
pub use memory_sink::MemorySink;
pub use memory_source::MemorySource;
pub use read_fault::ReadFault;
pub use reading::read_to_end;
pub use sink::Sink;
pub use sink_fault::SinkFault;
pub use source::Source;
pub use std_sink::StdSink;
pub use std_source::StdSource;
pub use text::Text;
pub use writing::write_all;

mod calls;
mod failed;
mod memory_sink;
mod memory_source;
mod read_fault;
mod reading;
mod sink;
mod sink_fault;
mod source;
mod std_sink;
mod std_source;
mod text;
mod writing;
