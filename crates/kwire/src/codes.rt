//! The protocol's error codes, by Kafka's names (Kafka protocol guide, "Error Codes").

/// No error.
pub const NONE: i16 = 0;

/// The offset is below the log's start or beyond its end.
pub const OFFSET_OUT_OF_RANGE: i16 = 1;

/// The checksum in the batch isn't that of its bytes.
pub const CORRUPT_MESSAGE: i16 = 2;

/// There is no such topic, or no such partition of it.
pub const UNKNOWN_TOPIC_OR_PARTITION: i16 = 3;

/// The partition's log is full, in a produce before version 4, which doesn't know `KAFKA_STORAGE_ERROR`.
pub const NOT_LEADER_OR_FOLLOWER: i16 = 6;

/// The followers didn't have the batch in time.
pub const REQUEST_TIMED_OUT: i16 = 7;

/// The partition has no such follower.
pub const REPLICA_NOT_AVAILABLE: i16 = 9;

/// The batch has too many bytes.
pub const MESSAGE_TOO_LARGE: i16 = 10;

/// The produce asks for all replicas, and fewer of the partition's replicas are in sync than its topic asks for.
pub const NOT_ENOUGH_REPLICAS: i16 = 19;

/// The batch was appended, and since then so many replicas left that fewer are in sync than the topic asks for.
pub const NOT_ENOUGH_REPLICAS_AFTER_APPEND: i16 = 20;

/// The produce asks for acks other than 0, 1 and all.
pub const INVALID_REQUIRED_ACKS: i16 = 21;

/// The broker doesn't answer this version of the api.
pub const UNSUPPORTED_VERSION: i16 = 35;

/// The request asks for something that the broker doesn't offer: a transaction.
pub const INVALID_REQUEST: i16 = 42;

/// The partition's log is full.
pub const KAFKA_STORAGE_ERROR: i16 = 56;

/// The batch is compressed.
pub const UNSUPPORTED_COMPRESSION_TYPE: i16 = 76;

/// The bytes are no batch.
pub const INVALID_RECORD: i16 = 87;
