//! What an executor that ends and one that never does share.
use crate::link::Link;
use crate::store::Store;
use async_task::Wake;
use std::alloc::Global;
use std::sync::Wait;

/// The link to the lock, and the futures.
#[derive(Drop)]
pub struct Body<F: Drop, T: Drop, W: Wake + Drop, R: Wait + Copy + Drop> {
    pub link: Link<W, R>,
    pub store: Store<F, T>,
    pub alloc: Global,
}
