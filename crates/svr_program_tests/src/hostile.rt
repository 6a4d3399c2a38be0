// The program in hostile hands: sources and sinks that fail at each of their calls, texts that are cut off at each of their bytes, and texts that are deep or heavy.

mod asking;
mod cut;
mod deep;
mod faults;
mod texts;
