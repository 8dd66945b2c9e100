//! What has a number: the requests of a front end, by the protocol, and why messages and chains are refused, by
//! `border.h` and `chain.h`.

/// The requests that are served, by the protocol's names and numbers.
#[derive(Clone, Copy, Debug)]
pub enum Request {
    GetFeatures = 1,
    SetFeatures = 2,
    SetOwner = 3,
    ResetOwner = 4,
    SetMemTable = 5,
    SetLogBase = 6,
    SetLogFd = 7,
    SetVringNum = 8,
    SetVringAddr = 9,
    SetVringBase = 10,
    GetVringBase = 11,
    SetVringKick = 12,
    SetVringCall = 13,
    SetVringErr = 14,
    GetProtocolFeatures = 15,
    SetProtocolFeatures = 16,
    GetQueueNum = 17,
    SetVringEnable = 18,
    SetDeviceStateFd = 42,
    CheckDeviceState = 43,
}

/// Why a message is refused.
#[derive(Clone, Copy, Debug)]
pub enum Refusal {
    /// It ends before its header or its payload does.
    Cut = 1,
    /// Its version is not 1.
    WrongVersion = 2,
    /// It is a reply.
    IsReply = 3,
    /// Its request is not served.
    NotServed = 4,
    /// Its payload has another size than its request's.
    WrongSize = 5,
    /// Descriptors are missing, or too many.
    WrongDescriptors = 6,
    /// A feature was not offered.
    NotOffered = 7,
    /// There is no queue of this number.
    NoQueue = 8,
    /// The size of a queue is no power of two, or above 32768.
    WrongQueueSize = 9,
    /// The index of a ring has more than 16 bits.
    WrongBase = 10,
    /// A queue is neither enabled nor disabled.
    WrongEnable = 11,
    /// What is written to a ring is to be logged, which was not offered, or its flags can't be.
    Logs = 12,
    /// A ring begins where its entries can't be.
    Misaligned = 13,
    /// A table of memory has another number of regions than it says, or more than 8.
    WrongCount = 14,
    /// A region is empty.
    EmptyRegion = 15,
    /// A region ends past the guest's addresses.
    GuestRange = 16,
    /// A region ends past the front end's addresses.
    UserRange = 17,
    /// A region ends past the offsets of a file.
    FileRange = 18,
    /// Two regions have an address of the guest in common.
    Overlap = 19,
    /// A log is empty, or ends past the offsets of a file.
    WrongLog = 20,
    /// A state goes neither way, or not while the queues are stopped.
    WrongTransfer = 21,
}

/// Why descriptors are no chain, by the number that C is told.
#[derive(Clone, Copy)]
pub enum ChainRefusal {
    /// The number of a descriptor is none of its table.
    OutsideTable = 3,
    /// More descriptors than the table has: there is a loop.
    LongerThanTable = 4,
    /// No region has the first of a descriptor's bytes.
    Outside = 5,
    /// A region has the first of a descriptor's bytes, and no region all of them.
    PastEnd = 6,
    /// A piece of the request after one of the room.
    ReadableAfterWritable = 7,
    /// More bytes than [`MOST_BYTES`](crate::chains::MOST_BYTES).
    TooManyBytes = 8,
    /// An indirect table in an indirect table.
    TableInTable = 9,
    /// An indirect table that another descriptor follows.
    TableGoesOn = 10,
    /// An indirect table without a descriptor, or that ends within one.
    TableSize = 11,
    /// An indirect table of too many descriptors.
    TooManyEntries = 12,
}
