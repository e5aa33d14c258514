// The bitfields of CSR, FR1 and ACR: each register's type, its fields, and the values that the driver builds.
#![tactic(auto)]

pub mod acr;
pub mod csr;
pub mod fr1;
