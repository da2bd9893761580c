// What is planned of a function before it is written: uses, forms, copies and paths.
mod copies;
mod first;
mod paths;
mod plans;
mod uses;
