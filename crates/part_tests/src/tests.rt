// The tests, one folder a part of the way, one module a subject.
mod modules;
mod plans;
mod rules;
mod texts;
