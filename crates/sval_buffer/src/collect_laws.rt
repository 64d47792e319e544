//! The laws of collecting fragments, each as a clause that is proved.

ghost use Rattle.sval_buffer.specs.CollectLaws.{TextStepsCollect, BinaryStepsCollect, TextStreamCollects, BinaryStreamCollects};

/// What holds of the fragments that are collected from any value.
pub fn collecting_laws()
    ensures text_steps_collect { TextStepsCollect }
    ensures binary_steps_collect { BinaryStepsCollect }
    ensures text_stream_collects { TextStreamCollects }
    ensures binary_stream_collects { BinaryStreamCollects }
{}
