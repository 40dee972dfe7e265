// XML that is read: what scripts make of files (the vectors), the calls that a reader makes, fragments and values.
mod attributes;
mod calls;
mod characters;
mod doctype;
mod fragments;
mod markup;
mod names;
mod prolog;
mod references;
mod vectors;
mod worked;
