// The names behind the numbers of document 01 and T.125, and the number of each.
ghost use Rattle.std.specs.Prelude.{◌≡◌};
ghost use Rattle.domain.specs.Numbers.{reply_number, result_number, status_number, reason_number, diagnostic_number};

// What an event is answered with.
#[derive(Clone, Copy, Debug, PartialEq, Eq)]
pub enum Reply {
    Done,
    Ignored,
    NotOpen,
    OpenAlready,
    WrongLength,
    BadEncoding,
    MayNotGoUp,
    NotServed,
    TooLong,
    NoRoom,
    BadLimit,
    BadFrame,
}

impl From<Reply> for u8 {
    ghost from_gives = { λ r n. n ≡ reply_number r };

    fn from(r: Reply) -> u8 {
        match r {
            Reply::Done => 0,
            Reply::Ignored => 1,
            Reply::NotOpen => 2,
            Reply::OpenAlready => 3,
            Reply::WrongLength => 4,
            Reply::BadEncoding => 5,
            Reply::MayNotGoUp => 6,
            Reply::NotServed => 7,
            Reply::TooLong => 8,
            Reply::NoRoom => 9,
            Reply::BadLimit => 10,
            Reply::BadFrame => 11,
        }
    }
}

// The results that a top provider gives of itself.
#[derive(Clone, Copy, Debug, PartialEq, Eq)]
pub enum Result {
    Successful,
    NoSuchChannel,
    NoSuchUser,
    NotAdmitted,
    OtherUserId,
    TokenNotAvailable,
    TokenNotPossessed,
    TooManyChannels,
    TooManyTokens,
    TooManyUsers,
}

impl From<Result> for u8 {
    ghost from_gives = { λ r n. n ≡ result_number r };

    fn from(r: Result) -> u8 {
        match r {
            Result::Successful => 0,
            Result::NoSuchChannel => 3,
            Result::NoSuchUser => 5,
            Result::NotAdmitted => 6,
            Result::OtherUserId => 7,
            Result::TokenNotAvailable => 9,
            Result::TokenNotPossessed => 10,
            Result::TooManyChannels => 11,
            Result::TooManyTokens => 12,
            Result::TooManyUsers => 13,
        }
    }
}

#[derive(Clone, Copy, Debug, PartialEq, Eq)]
pub enum Status {
    NotInUse,
    SelfGrabbed,
    OtherGrabbed,
    SelfInhibited,
    OtherInhibited,
    SelfRecipient,
    SelfGiving,
    OtherGiving,
}

impl From<Status> for u8 {
    ghost from_gives = { λ s n. n ≡ status_number s };

    fn from(s: Status) -> u8 {
        match s {
            Status::NotInUse => 0,
            Status::SelfGrabbed => 1,
            Status::OtherGrabbed => 2,
            Status::SelfInhibited => 3,
            Status::OtherInhibited => 4,
            Status::SelfRecipient => 5,
            Status::SelfGiving => 6,
            Status::OtherGiving => 7,
        }
    }
}

// Why users leave, as DUin and DPum tell it.
#[derive(Clone, Copy, Debug, PartialEq, Eq)]
pub enum Reason {
    DomainDisconnected,
    ProviderInitiated,
    TokenPurged,
    UserRequested,
    ChannelPurged,
}

impl From<Reason> for u8 {
    ghost from_gives = { λ r n. n ≡ reason_number r };

    fn from(r: Reason) -> u8 {
        match r {
            Reason::DomainDisconnected => 0,
            Reason::ProviderInitiated => 1,
            Reason::TokenPurged => 2,
            Reason::UserRequested => 3,
            Reason::ChannelPurged => 4,
        }
    }
}

// The diagnostics of an RJum that a top provider sends.
#[derive(Clone, Copy, Debug, PartialEq, Eq)]
pub enum Diagnostic {
    ForbiddenUpward,
    InvalidPer,
}

impl From<Diagnostic> for u8 {
    ghost from_gives = { λ d n. n ≡ diagnostic_number d };

    fn from(d: Diagnostic) -> u8 {
        match d {
            Diagnostic::ForbiddenUpward => 2,
            Diagnostic::InvalidPer => 4,
        }
    }
}
