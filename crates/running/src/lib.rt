//! The words for a running network: grants, endings and refusals. What each of its calls answers and leaves stands in specs/.
#![tactic(auto)]

pub mod ending;
pub mod grant;
pub mod refusal;

pub use ending::Ending;
pub use grant::Grant;
pub use refusal::RunRefusal;
