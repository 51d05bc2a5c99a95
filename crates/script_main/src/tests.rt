mod calls;
mod edges;
mod on_threads;
mod plain;
mod promises;
mod words;
