use crate::token::Token;

/// The socket that an allocation or a memzone asks for. After the socket argument of rte_malloc_socket.
#[derive(Clone, Copy)]
pub enum SocketChoice {
    /// Any socket, which is the default. After SOCKET_ID_ANY.
    Any,
    /// This one, 0 to 31.
    Number { socket: u32 },
}

/// The options of an allocation or of a memzone; what is not given has its default. After rte_malloc_socket and
/// rte_memzone_reserve_bounded.
#[derive(Drop)]
pub struct Options<'a> {
    /// The socket; by default any.
    pub socket: SocketChoice,
    /// The external heap's name; by default none. It excludes a socket.
    pub heap: Option<Token<'a>>,
    /// The alignment in bytes; by default 0.
    pub align: u64,
    /// The bound in bytes; by default 0.
    pub bound: u64,
    /// The page flags; by default 0.
    pub flags: u32,
}
