//! Tests of the program: lines at desks in memory, devices that fail, the calls that a run of the program makes, and its
//! arguments. The sessions in `examples/runs/` compare what whole runs print.
#![tactic(auto)]

#[cfg(test)]
mod arguments;
#[cfg(test)]
mod asserting;
#[cfg(test)]
mod at_desks;
#[cfg(test)]
mod exports;
#[cfg(test)]
mod failing;
#[cfg(test)]
mod import_lines;
#[cfg(test)]
mod imports;
#[cfg(test)]
mod lines;
#[cfg(test)]
mod lines_at_desk;
#[cfg(test)]
mod lines_in_file;
#[cfg(test)]
mod migrate_lines;
#[cfg(test)]
mod one_file;
#[cfg(test)]
mod register;
#[cfg(test)]
mod running;
#[cfg(test)]
mod scripts;
#[cfg(test)]
mod seeds;
#[cfg(test)]
mod serve_lines;
#[cfg(test)]
mod streams;
