use hp_base::Name;

/// An allocation validator, as a value: its name, its socket, and the bytes above which its closure is asked. After
/// rte_mem_alloc_validator_register.
#[derive(Drop)]
pub struct Validator<F: Drop> {
    pub name: Name,
    pub socket: u32,
    pub limit: u64,
    pub allows: F,
}
