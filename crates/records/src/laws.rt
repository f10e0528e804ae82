// The laws of records and batches.
ghost use Rattle.records.specs.Batches.{BatchesDrafted, BatchesRefused, BatchesWhole, BatchesAccepted};
ghost use Rattle.records.specs.Records.{ReadsBack, WritesBack};

// A correction comes back from its bytes, and bytes from their correction; a batch makes in a draft the
// corrections whose bytes it holds, and nothing else is an accepted batch.
pub fn records_come_back()
    ensures reads_back { ReadsBack }
    ensures writes_back { WritesBack }
    ensures batches_drafted { BatchesDrafted }
    ensures batches_refused { BatchesRefused }
    ensures batches_whole { BatchesWhole }
    ensures batches_accepted { BatchesAccepted }
{}
