mod ends;
mod streams;
