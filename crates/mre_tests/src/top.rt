//! The top call.
mod making;
mod reads;
mod requests;
