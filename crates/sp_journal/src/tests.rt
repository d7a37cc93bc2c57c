// The worked files, hostile files, and what a stop at any moment leaves.
mod files;
mod payloads;
mod reading;
mod stopping;
mod writing;
