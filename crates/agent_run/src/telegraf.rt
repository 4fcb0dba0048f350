//! Keys that Telegraf has and a configuration here hasn't, with what to do about each. The table in
//! docs/users/from-telegraf.md has the same words, key by key.
use agent_config::Class;

/// What to do about a key of the table `agent`.
fn about_agent(key: &str) -> Option<&'static str> {
    match key {
        "logtarget"
        | "logformat"
        | "log_with_timezone"
        | "logfile_rotation_interval"
        | "logfile_rotation_max_size"
        | "logfile_rotation_max_archives" => {
            Some("leave it out: there is no log, and standard error says what matters")
        }
        "metric_buffer_strategy" | "buffer_strategy" | "buffer_directory" => {
            Some("leave it out: metrics wait in memory")
        }
        "statefile" => Some("leave it out: nothing is kept from one run to the next"),
        "snmp_translator" | "collection_offset" => {
            Some("leave it out: there is nothing that it is about")
        }
        "always_include_local_tags" | "always_include_global_tags" => {
            Some("leave it out: each metric of an input gets the global tags that it lacks")
        }
        _ => None,
    }
}

/// What to do about a key of an input.
fn about_input(key: &str) -> Option<&'static str> {
    match key {
        "interval" | "collection_jitter" | "collection_offset" => {
            Some("leave it out: an input is read to its end, without a pause")
        }
        "name_override" | "name_prefix" | "name_suffix" => {
            Some("leave it out: an input renames no metric")
        }
        "tags" => Some("write the tags into [global_tags]: an input has none of its own"),
        "file_tag" => Some("leave it out: write the tag into [global_tags]"),
        "character_encoding" => Some("leave it out: a text is read as UTF-8"),
        _ => about_server(key),
    }
}

/// What to do about a key of a StatsD server.
fn about_server(key: &str) -> Option<&'static str> {
    match key {
        "protocol" | "max_tcp_connections" | "tcp_keep_alive" | "tcp_keep_alive_period" => {
            Some("leave it out: packets come over UDP")
        }
        "read_buffer_size" | "allowed_pending_messages" | "number_workers_threads" => {
            Some("leave it out: packets wait in the system, see net.core.rmem_max")
        }
        "delete_gauges" | "max_ttl" => Some("leave it out: gauges are kept until the run ends"),
        "delete_counters" | "delete_sets" | "delete_timings" => {
            Some("leave it out: all but gauges begins anew with each group of packets")
        }
        "percentiles" | "percentile_limit" => {
            Some("leave it out: a timing has `count`, `lower`, `upper` and `sum`")
        }
        "metric_separator" | "convert_names" | "sanitize_name_method" => {
            Some("leave it out: a name is taken as it is")
        }
        "float_counters" => Some("leave it out: a counter is an exact decimal"),
        "parse_data_dog_tags" => Some("leave it out: tags of DogStatsD are always read"),
        "datadog_extensions" | "datadog_distributions" | "datadog_keep_container_tag" => {
            Some("leave it out: no events, service checks or distributions are read")
        }
        _ => None,
    }
}

/// What to do about a key of a processor.
fn about_processor(key: &str) -> Option<&'static str> {
    match key {
        "tag_rename" | "field_rename" | "metric_rename" => {
            Some("leave it out: [[processors.rename]] renames, by names and not by patterns")
        }
        _ => None,
    }
}

/// What to do about a key of an aggregator.
fn about_aggregator(key: &str) -> Option<&'static str> {
    match key {
        "name_override" | "name_prefix" | "name_suffix" => {
            Some("leave it out: an aggregator renames no metric; fields get an end, as `_min`")
        }
        "tags" => Some("leave it out: what is made has the tags of its series, and no others"),
        "round_timestamp_to" => Some("leave it out: metrics of one time are merged"),
        "output_strategy" => {
            Some("leave it out: a last metric is given once its series has timed out")
        }
        "keep_original_field_names" => Some(
            "leave it out: fields of a last metric end in `_final`",
        ),
        _ => None,
    }
}

/// What to do about a key of an output.
fn about_output(key: &str) -> Option<&'static str> {
    match key {
        "rotation_interval" | "rotation_max_size" | "rotation_max_archives" => {
            Some("leave it out: a file isn't rotated")
        }
        "use_batch_format" => Some("leave it out: a batch is always written at once"),
        "compression_algorithm" | "compression_level" => {
            Some("leave it out: nothing is compressed")
        }
        "influx_max_line_bytes"
        | "influx_sort_fields"
        | "influx_uint_support"
        | "influx_omit_timestamp" => {
            Some("leave it out: a line has any length, its fields in their order, and `u` numbers")
        }
        "prefix"
        | "template"
        | "graphite_tag_support"
        | "graphite_separator"
        | "graphite_strict_sanitize_regex" => {
            Some("leave it out: lines of Graphite are written with tags")
        }
        "flush_interval" | "flush_jitter" => { Some("leave it out: each round is sent at once") }
        "name_override" | "name_prefix" | "name_suffix" => {
            Some("leave it out: an output renames no metric")
        }
        _ => None,
    }
}

/// What to do about a key of a plugin.
fn about_plugin(key: &str) -> Option<&'static str> {
    match key {
        "metricpass" => Some("leave it out: write namepass, namedrop, tagpass or tagdrop"),
        "precision" => Some("leave it out: times are whole nanoseconds"),
        "log_level" | "startup_error_behavior" => {
            Some("leave it out: there is nothing that it is about")
        }
        _ => None,
    }
}

/// What to do about a key of Telegraf's that a table hasn't; None where Telegraf has none of this name there.
pub(crate) fn about(class: &Class, key: &str) -> Option<&'static str> {
    let own = match class {
        Class::Agent => return about_agent(key),
        Class::Inputs => about_input(key),
        Class::Processors => about_processor(key),
        Class::Aggregators => about_aggregator(key),
        Class::Outputs => about_output(key),
        _ => None,
    };
    if own.is_some() {
        own
    } else {
        about_plugin(key)
    }
}
